//! A writer that takes no memory.

use std::io::{self, Write};

/// How many octets a page has. What is written after them is lost.
const ROOM: usize = 4_096;

const DIGITS: &[u8; 16] = b"0123456789abcdef";

/// Octets that are written one after the other.
#[derive(Drop)]
pub(crate) struct Page {
    octets: [u8; ROOM],
    used: usize,
}

impl Page {
    /// An empty page.
    pub(crate) fn new() -> Page {
        Page {
            octets: [0; ROOM],
            used: 0,
        }
    }

    /// What is written.
    pub(crate) fn as_slice(&self) -> &[u8] {
        let used = self.used.min(ROOM);
        &self.octets[..used]
    }

    /// Forgets what is written.
    pub(crate) fn clear(&mut self) {
        self.used = 0;
    }

    /// Writes an octet.
    pub(crate) fn push(&mut self, octet: u8) {
        if self.used < ROOM {
            self.octets[self.used] = octet;
            self.used += 1;
        }
    }

    /// Writes octets.
    pub(crate) fn append(&mut self, octets: &[u8]) {
        for octet in octets {
            self.push(*octet);
        }
    }

    /// Writes octets as hexadecimal digits.
    pub(crate) fn hexadecimal(&mut self, octets: &[u8]) {
        for octet in octets {
            self.push(digit(*octet / 16));
            self.push(digit(*octet % 16));
        }
    }
}

/// A digit.
fn digit(value: u8) -> u8 {
    DIGITS[(value % 16) as usize]
}

impl Write for Page {
    fn write(&mut self, buf: &[u8]) -> io::Result<usize> {
        self.append(buf);
        Ok(buf.len())
    }

    fn flush(&mut self) -> io::Result<()> {
        Ok(())
    }
}
