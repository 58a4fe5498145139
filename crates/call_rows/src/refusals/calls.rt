//! How the call of a row is made, and made again.

use crate::refusals::said::{Said, Stop};
use std::alloc::AllocError;

/// The calls whose rows make two of them.
const TWICE: &str = "
    decode
    encode
    digest_of
    answer
    Journal::open
    Node::open
    Node::frame
    run
    LinkIn::feed
    link_out
    settings
    page
";

/// The calls of some rows, with what they need.
pub(crate) trait Calls: Drop {
    /// Calls, and prints what that gives. If the call is refused memory, looks at what must not
    /// have changed.
    fn call_once(&mut self, said: &mut Said, call: &str);
}

/// What calls need, where nothing is asked of the system.
pub(crate) trait Made: Calls {
    /// Makes what a call needs, or what the second call of its row needs. There is nothing if
    /// memory is refused.
    fn make(said: &mut Said, call: &str, is_second: bool) -> Option<Self>;
}

/// What a call gives.
pub(crate) trait Shown: Drop {
    /// Prints it.
    fn show(&self, said: &mut Said);
}

/// Plays a row: its call, or its two calls.
pub(crate) fn play<C: Made>(said: &mut Said, call: &str) {
    play_made::<C>(said, call, false);
    if is_one_of(call, TWICE) {
        play_made::<C>(said, call, true);
    }
}

/// Whether a word is one of these.
pub(crate) fn is_one_of(word: &str, words: &str) -> bool {
    for other in words.split_whitespace() {
        if word == other {
            return true;
        }
    }
    false
}

/// Whether a word is this one.
pub(crate) fn is_word(word: &str, other: &str) -> bool {
    word == other
}

/// Whether octets are these.
pub(crate) fn is_same(octets: &[u8], others: &[u8]) -> bool {
    octets == others
}

/// Makes what a call of a row needs, and plays it.
fn play_made<C: Made>(said: &mut Said, call: &str, is_second: bool) {
    if let Some(mut calls) = C::make(said, call, is_second) {
        play_call(said, &mut calls, call);
    }
}

/// Makes a call, and makes it again if it is refused memory.
pub(crate) fn play_call<C: Calls>(said: &mut Said, calls: &mut C, call: &str) {
    said.ask();
    for _ in 0..2 {
        if said.is_asking() {
            calls.call_once(said, call);
        }
    }
    if !said.is_answered() {
        said.stop(Stop::Other);
    }
}

/// What a call beside gives. If that is refused, the row begins again.
pub(crate) fn beside<T, F: Drop>(said: &mut Said, answer: Result<T, F>) -> Option<T> {
    match answer {
        Ok(given) => Some(given),
        Err(_fault) => {
            said.stop(Stop::Memory);
            None
        }
    }
}

/// Prints what the call of a row gives. This fault is Memory.
pub(crate) fn given<T: Shown, F: PartialEq + Drop>(
    said: &mut Said,
    answer: Result<T, F>,
    memory: F,
) {
    match &answer {
        Ok(given) => {
            given.show(said);
            said.answer();
        }
        Err(fault) => said.refuse(*fault == memory),
    }
}

/// Octets that are made beside the call; none if that is refused.
pub(crate) fn octets_or_none(said: &mut Said, made: Result<Vec<u8>, AllocError>) -> Vec<u8> {
    match made {
        Ok(octets) => octets,
        Err(_) => {
            said.stop(Stop::Memory);
            Vec::new(said.alloc)
        }
    }
}

/// Octets to which something is appended.
pub(crate) fn front(said: &mut Said) -> Vec<u8> {
    let made = Vec::from_slice(said.alloc, b"\x01\x02");
    octets_or_none(said, made)
}

/// Whether something was appended to these octets. If it was refused, looks whether nothing was.
pub(crate) fn written<F: PartialEq + Drop>(
    said: &mut Said,
    done: Result<(), F>,
    memory: F,
    out: &[u8],
) -> bool {
    match &done {
        Ok(()) => said.answer(),
        Err(fault) => {
            said.keep(out == b"\x01\x02".as_slice());
            said.refuse(*fault == memory);
        }
    }
    done.is_ok()
}
