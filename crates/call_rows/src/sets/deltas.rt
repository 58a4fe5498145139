//! Lines about deltas and their octets.

use crate::sets::calls;
use crate::sets::page::Page;
use crate::sets::printing::print_delta;
use crate::sets::runs::Runs;
use crate::sets::stop::Stop;
use crate::sets::values::{print_ops_fault, print_ops_refusal};
use crate::sets::words::Words;
use rep_ops::{ClientId, Delta, Op, OpsFault};

/// The delta of operations; prints why there is none.
pub(crate) fn made(page: &mut Page, ops: Vec<Op>) -> Option<Delta> {
    match calls::delta_of(page.alloc, ops) {
        Ok(delta) => Some(delta),
        Err(fault) => {
            print_ops_fault(page, fault);
            None
        }
    }
}

/// A delta, or why there is none.
pub(crate) fn print_read(page: &mut Page, read: Result<Delta, OpsFault>) {
    match read {
        Ok(delta) => {
            print_delta(page, &delta);
            drop(delta);
        }
        Err(fault) => print_ops_fault(page, fault),
    }
}

/// `spell`: the octets of the delta of the operations stand after those that are there.
pub(crate) fn spell(page: &mut Page, delta: &Delta, out: &mut Vec<u8>) {
    if let Err(fault) = calls::write_delta(page.alloc, delta, out) {
        print_ops_fault(page, fault);
    }
}

/// `written`: the delta of the operations, and its octets, which stand in place of those that were
/// there.
pub(crate) fn written(page: &mut Page, delta: &Delta, out: &mut Vec<u8>) {
    print_delta(page, delta);
    out.clear();
    match calls::write_delta(page.alloc, delta, out) {
        Ok(()) => print(page, out),
        Err(fault) => print_ops_fault(page, fault),
    }
}

/// Plays a line that changes the octets, or says of a name whether a client may have it; leaves all
/// others to the lines that read the octets.
pub(crate) fn play(page: &mut Page, octets: &mut Vec<u8>, words: &mut Words<'_>) {
    match words.first {
        "set" => set(octets, words),
        "fill" => fill(octets, words),
        "cut" => cut(octets, words),
        "altered" => altered(page, octets, words),
        _ => play_reading(page, octets, words),
    }
}

/// Plays a line that prints the octets or what they spell.
fn play_reading(page: &mut Page, octets: &[u8], words: &mut Words<'_>) {
    match words.first {
        "print" => print(page, octets),
        "size" => size(page, octets),
        "read" => print_read(page, calls::read_delta(page.alloc, octets)),
        "older" => print_read(page, calls::read_older(page.alloc, octets)),
        _ => play_counting(page, octets, words),
    }
}

/// Plays a line that counts the operations that the octets spell, or one that wants no octets.
fn play_counting(page: &mut Page, octets: &[u8], words: &mut Words<'_>) {
    match words.first {
        "count" => counted(page, octets),
        "beginnings" => beginnings(page, octets),
        "none" => none(page),
        _ => named(page, words),
    }
}

/// `none`: the delta of no operations.
fn none(page: &mut Page) {
    let delta = Delta::empty(page.alloc);
    print_delta(page, &delta);
    drop(delta);
}

/// `client NAME`: whether a client may have this name.
fn named(page: &mut Page, words: &mut Words<'_>) {
    let name = words.octets();
    if words.end() {
        match ClientId::new(page.alloc, name) {
            Ok(client) => {
                page.named("client", client.bytes());
                drop(client);
            }
            Err(fault) => print_ops_fault(page, fault),
        }
    }
}

/// `print`: the octets.
fn print(page: &mut Page, octets: &[u8]) {
    page.digits(octets);
    page.end();
}

/// `size`: how many octets there are.
fn size(page: &mut Page, octets: &[u8]) {
    page.word(octets.len());
    page.line(" octets");
}

/// `count`: how many operations the delta has that the octets spell.
fn counted(page: &mut Page, octets: &[u8]) {
    answer(page, octets);
    page.end();
}

/// How many operations octets spell, or why none.
fn answer(page: &mut Page, octets: &[u8]) {
    match calls::read_delta(page.alloc, octets) {
        Ok(delta) => {
            page.labelled("operations", delta.ops().len());
            drop(delta);
        }
        Err(fault) => print_ops_refusal(page, fault),
    }
}

/// `altered AT HEX`: what the octets are read as where one of them is another; they stay.
fn altered(page: &mut Page, octets: &[u8], words: &mut Words<'_>) {
    match Vec::from_slice(page.alloc, octets) {
        Ok(copy) => count_altered(page, copy, words),
        Err(_) => page.run_out(),
    }
}

/// What octets are read as if one of them is another.
fn count_altered(page: &mut Page, mut octets: Vec<u8>, words: &mut Words<'_>) {
    set(&mut octets, words);
    if words.end() {
        counted(page, &octets);
    }
    drop(octets);
}

/// `beginnings`: what each beginning of the octets is read as, but all of them.
fn beginnings(page: &mut Page, octets: &[u8]) {
    let mut runs = Runs::new(page.alloc);
    for end in 0..octets.len() {
        answer(&mut runs.answers.said, &octets[..end]);
        runs.add(page, end);
    }
    runs.finish(page);
    drop(runs);
}

/// `set AT HEX`: one octet is another.
fn set(octets: &mut Vec<u8>, words: &mut Words<'_>) {
    let at = words.count();
    let given = words.digits();
    match given.as_slice() {
        [octet] => put(octets, words, at, *octet),
        _ => words.fail(Stop::Line),
    }
    drop(given);
}

/// Puts an octet in the place of another, if the words of the line were right.
fn put(octets: &mut [u8], words: &mut Words<'_>, at: usize, octet: u8) {
    if words.end() {
        match octets.get_mut(at) {
            Some(place) => *place = octet,
            None => words.fail(Stop::Line),
        }
    }
}

/// `fill COUNT`: octets of 0 stand after, up to so many in all.
fn fill(octets: &mut Vec<u8>, words: &mut Words<'_>) {
    let size = words.count();
    if words.end() {
        for _ in octets.len()..size {
            words.extend(octets, &[0]);
        }
    }
}

/// `cut COUNT`: the first so many octets are left.
fn cut(octets: &mut Vec<u8>, words: &mut Words<'_>) {
    let size = words.count();
    if words.end() {
        octets.truncate(size);
    }
}
