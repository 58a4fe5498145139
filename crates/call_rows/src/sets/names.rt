//! Names for octets that many rows use, and lines that make octets.

use crate::sets::stop::Stop;
use crate::sets::words::Words;
use std::alloc::Global;
use std::mem;

/// Octets that have a name.
struct Named {
    name: String,
    octets: Vec<u8>,
}

impl Drop for Named {
    fn drop(self) {
        let Named { name, octets } = self;
        drop(name);
        drop(octets);
    }
}

/// All octets that have a name.
#[derive(Drop)]
pub(crate) struct Names {
    all: Vec<Named>,
}

/// No name.
pub(crate) fn none(alloc: Global) -> Names {
    Names {
        all: Vec::new(alloc),
    }
}

/// `name NAME OCTETS ..`: from here on the name is these octets.
pub(crate) fn add(names: &mut Names, words: &mut Words<'_>) {
    let name = words.word();
    let octets = octets(names, words);
    if words.end() {
        push(names, words, name, octets);
    } else {
        drop(octets);
    }
}

/// Adds a name.
fn push(names: &mut Names, words: &mut Words<'_>, name: &str, octets: Vec<u8>) {
    match String::from_str(words.alloc, name) {
        Ok(name) => push_named(names, words, Named { name, octets }),
        Err(_) => {
            words.fail(Stop::Memory);
            drop(octets);
        }
    }
}

/// Adds a name.
fn push_named(names: &mut Names, words: &mut Words<'_>, named: Named) {
    let pushed = names.all.push(named);
    let is_short = pushed.is_err();
    drop(pushed);
    if is_short {
        words.fail(Stop::Memory);
    }
}

/// `octets OCTETS ..`: these octets.
pub(crate) fn set(names: &Names, words: &mut Words<'_>, kept: &mut Vec<u8>) {
    let mut octets = octets(names, words);
    if words.end() {
        mem::swap(kept, &mut octets);
    }
    drop(octets);
}

/// `behind OCTETS ..`: these octets stand behind those that are there.
pub(crate) fn extend(names: &Names, words: &mut Words<'_>, kept: &mut Vec<u8>) {
    let more = octets(names, words);
    if words.end() {
        words.extend(kept, &more);
    }
    drop(more);
}

/// The octets of a name.
fn found<'a>(names: &'a Names, name: &str) -> Option<&'a [u8]> {
    for named in &names.all {
        if named.name.as_str() == name {
            return Some(named.octets.as_slice());
        }
    }
    None
}

/// The octets that the words write, each a name or hexadecimal digits.
fn octets(names: &Names, words: &mut Words<'_>) -> Vec<u8> {
    let mut octets = Vec::new(words.alloc);
    for _ in 0..words.left() {
        let word = words.word();
        add_word(names, words, &mut octets, word);
    }
    octets
}

/// Puts the octets of a word after those that are there.
fn add_word(names: &Names, words: &mut Words<'_>, octets: &mut Vec<u8>, word: &str) {
    match found(names, word) {
        Some(named) => words.extend(octets, named),
        None => add_digits(words, octets, word),
    }
}

/// Puts the octets of hexadecimal digits after those that are there.
fn add_digits(words: &mut Words<'_>, octets: &mut Vec<u8>, word: &str) {
    let some = words.digits_of(word);
    words.extend(octets, &some);
    drop(some);
}
