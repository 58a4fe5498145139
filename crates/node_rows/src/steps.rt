//! Lines that are calls of the gateway.

use crate::calls::{call, call_thrice};
use crate::page::Page;
use crate::printing::print_answer;
use crate::stop::{Stop, is_short};
use crate::words::Words;
use gw_node::{Answer, Node, Step};
use jr_journal::MemoryDisk;
use octets::Octets;
use rep_model::Replica;

/// The call that a line says whose first word this is.
pub(crate) fn step(first: &str, words: &mut Words) -> Step {
    match first {
        "frame" => frame(words),
        "take" => take(words),
        "view" => view(words),
        first => step_of_clock(first, words),
    }
}

/// The same of the calls without octets. A line that says no call is refused.
fn step_of_clock(first: &str, words: &mut Words) -> Step {
    match first {
        "tick" => tick(words),
        "reopen" => Step::Reopen,
        first => {
            words.require(first == "compact");
            Step::Compact
        }
    }
}

/// `frame PORT MOMENT OCTETS ..`: a datagram comes.
fn frame(words: &mut Words) -> Step {
    let from = words.address();
    let now = words.moment();
    match Octets::new(words.octets()) {
        Ok(bytes) => Step::Frame { from, bytes, now },
        Err(_) => {
            words.fail(Stop::Memory);
            Step::Compact
        }
    }
}

/// `take OCTETS ..`: a delta comes.
fn take(words: &mut Words) -> Step {
    let delta = words.delta();
    Step::Take { delta }
}

/// `tick MOMENT`: time goes by.
fn tick(words: &mut Words) -> Step {
    let now = words.moment();
    Step::Tick { now }
}

/// `view CLIENT`: somebody asks for a client's view.
fn view(words: &mut Words) -> Step {
    match words.client() {
        Some(client) => Step::View { client },
        None => Step::Compact,
    }
}

/// A call of the gateway, and its answer.
pub(crate) fn call_once<R: Replica>(
    page: &mut Page,
    node: &mut Node<R, MemoryDisk>,
    first: &str,
    words: &mut Words,
) {
    let step = step(first, words);
    if words.end(page) {
        make(page, node, &step);
    }
    drop(step);
}

/// Makes a call of the gateway, and prints its answer.
fn make<R: Replica>(page: &mut Page, node: &mut Node<R, MemoryDisk>, step: &Step) {
    let answer = call(page.alloc(), node, step);
    print_called(page, &answer, node.starved());
    drop(answer);
}

/// What a gateway answered.
fn print_called(page: &mut Page, answer: &Answer, is_starved: bool) {
    page.stop_if_short(is_short(answer, is_starved));
    print_answer(page, answer);
}

/// `thrice CALL`: a call as a value, with its answer three times.
pub(crate) fn call_as_value<R: Replica>(
    page: &mut Page,
    node: &mut Node<R, MemoryDisk>,
    words: &mut Words,
) {
    let step = step(words.word(), words);
    if words.end(page) {
        make_as_value(page, node, &step);
    }
    drop(step);
}

/// Makes a call of the gateway as a value, and prints its answer three times.
fn make_as_value<R: Replica>(page: &mut Page, node: &mut Node<R, MemoryDisk>, step: &Step) {
    let answers = call_thrice(page.alloc(), node, step);
    print_thrice(page, &answers, node.starved());
    drop(answers);
}

/// What a gateway answered, three times.
fn print_thrice(page: &mut Page, answers: &(Answer, Answer, Answer), is_starved: bool) {
    let (first, second, third) = answers;
    print_called(page, first, is_starved);
    print_called(page, second, is_starved);
    print_called(page, third, is_starved);
}
