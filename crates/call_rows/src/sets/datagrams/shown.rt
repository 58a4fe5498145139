//! Octets as they are printed.

use crate::sets::page::Page;
use std::str;

/// From so many octets on, those that are the same are told by their number.
const MANY: u32 = 16;

/// The most octets that are printed as a text.
const LONGEST_TEXT: usize = 32;

/// One octet, so often.
#[derive(Clone, Copy)]
struct Run {
    octet: u8,
    count: u32,
}

/// Prints octets in hexadecimal digits. Many that are the same are `(COUNTxOCTET)`, and none are
/// `-`.
pub(crate) fn print_digits(page: &mut Page, octets: &[u8]) {
    if octets.is_empty() {
        page.text("-");
    }
    let mut run = Run { octet: 0, count: 0 };
    for octet in octets {
        run = after(page, run, *octet);
    }
    print_run(page, run);
}

/// The run that an octet makes longer or begins; one that it ends is printed.
fn after(page: &mut Page, run: Run, octet: u8) -> Run {
    if octet == run.octet {
        let count = run.count.saturating_add(1);
        return Run { octet, count };
    }
    print_run(page, run);
    Run { octet, count: 1 }
}

/// Prints one octet, so often.
fn print_run(page: &mut Page, run: Run) {
    if run.count >= MANY {
        page.text("(");
        page.value(run.count);
        page.text("x");
        page.hexadecimal(&[run.octet]);
        page.text(")");
    } else {
        print_few(page, run);
    }
}

/// Prints one octet, each time that it stands.
fn print_few(page: &mut Page, run: Run) {
    for _ in 0..run.count {
        page.hexadecimal(&[run.octet]);
    }
}

/// Prints octets as a text after an apostrophe where that shows them, else in hexadecimal digits.
pub(crate) fn print_text(page: &mut Page, octets: &[u8]) {
    match str::from_utf8(octets) {
        Ok(text) if is_text(octets) => {
            page.text("'");
            page.text(text);
        }
        _ => print_digits(page, octets),
    }
}

/// Whether there are a few octets, each a letter, a digit or a sign of ASCII.
fn is_text(octets: &[u8]) -> bool {
    for octet in octets {
        if !octet.is_ascii_graphic() {
            return false;
        }
    }
    !octets.is_empty() && octets.len() <= LONGEST_TEXT
}
