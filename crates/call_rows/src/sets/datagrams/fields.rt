//! Octets of a line about datagrams.

use crate::sets::words::Words;

/// The octets that the words write which are left, one after the other.
pub(crate) fn octets(words: &mut Words<'_>) -> Vec<u8> {
    let mut octets = Vec::new(words.alloc);
    for _ in 0..words.left() {
        add_field(words, &mut octets);
    }
    octets
}

/// The octets that the next word writes.
pub(crate) fn field(words: &mut Words<'_>) -> Vec<u8> {
    let mut octets = Vec::new(words.alloc);
    add_field(words, &mut octets);
    octets
}

/// The octets that the words write up to this one, which is read too.
pub(crate) fn octets_to(words: &mut Words<'_>, mark: &str) -> Vec<u8> {
    let mut octets = Vec::new(words.alloc);
    let mut is_over = false;
    for _ in 0..words.left() {
        if !is_over {
            is_over = add_or_end(words, &mut octets, mark);
        }
    }
    octets
}

/// Adds the octets that the next word writes, unless it is this one. Whether it is.
fn add_or_end(words: &mut Words<'_>, octets: &mut Vec<u8>, mark: &str) -> bool {
    let word = words.word();
    let is_over = word == mark;
    if !is_over {
        add_word(words, octets, word);
    }
    is_over
}

/// Adds the octets that the next word writes.
fn add_field(words: &mut Words<'_>, octets: &mut Vec<u8>) {
    let word = words.word();
    add_word(words, octets, word);
}

/// Adds the octets that a word writes: `-` none, a text after an apostrophe, or hexadecimal digits.
fn add_word(words: &mut Words<'_>, octets: &mut Vec<u8>, word: &str) {
    if word == "-" {
        return;
    }
    match word.strip_prefix('\'') {
        Some(text) => words.extend(octets, text.as_bytes()),
        None => add_digits(words, octets, word),
    }
}

/// Adds the octets of hexadecimal digits, or of these after how often they stand.
fn add_digits(words: &mut Words<'_>, octets: &mut Vec<u8>, word: &str) {
    match word.split_once('x') {
        Some((times, digits)) => {
            let times = words.number_of(times);
            add_times(words, octets, times, digits);
        }
        None => add_times(words, octets, 1, word),
    }
}

/// Adds the octets of hexadecimal digits, so often.
fn add_times(words: &mut Words<'_>, octets: &mut Vec<u8>, times: u64, digits: &str) {
    let some = words.digits_of(digits);
    for _ in 0..times {
        words.extend(octets, &some);
    }
    drop(some);
}
