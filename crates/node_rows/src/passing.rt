//! What is printed of a shift and its passes.

use crate::page::Page;
use crate::printing::{print_length, print_out, print_refusal};
use crate::seats::{Called, Turn};
use gw_node::{Answer, NodeFault, Out};
use gw_shift::CallFault;
use rep_ops::Delta;

/// Whether memory ran out before a call of a pass had its answer.
pub(crate) fn is_memory(fault: &CallFault) -> bool {
    match fault {
        CallFault::Memory => true,
        CallFault::Node { fault, .. } => matches!(fault, NodeFault::Memory),
        _ => false,
    }
}

/// What a call of a pass was answered.
pub(crate) fn print_called(page: &mut Page, called: &Called) {
    match called {
        Ok((out, number)) => {
            page.number("call ", *number);
            page.text(": ");
            print_answered(page, out);
        }
        Err(fault) => print_uncalled(page, fault),
    }
}

/// What calls in a row were answered, of which the first has this number.
pub(crate) fn print_row(page: &mut Page, answers: &[Answer], first: u64) {
    page.length("row of ", answers.len());
    page.end();
    let mut number = first;
    for answer in answers {
        page.number("call ", number);
        page.text(": ");
        print_one(page, answer);
        number = number.saturating_add(1);
    }
}

/// What one of them was answered.
fn print_one(page: &mut Page, answer: &Answer) {
    match answer {
        Ok(out) => print_answered(page, out),
        Err(fault) => {
            page.stop_if_short(matches!(fault, NodeFault::Memory));
            print_refusal(page, fault);
            page.end();
        }
    }
}

/// Why a call has no answer.
pub(crate) fn print_uncalled(page: &mut Page, fault: &CallFault) {
    page.stop_if_short(is_memory(fault));
    match fault {
        CallFault::Node { number, fault } => {
            page.number("call ", *number);
            page.text(": ");
            print_refusal(page, fault);
        }
        fault => {
            page.number("refused K", u64::from(fault.number()));
            page.shown(": ", fault);
        }
    }
    page.end();
}

/// An answer, and how many filters the session of its view has.
fn print_answered(page: &mut Page, out: &Out) {
    page.text("answer");
    print_out(page, out);
    if let Some(view) = &out.view {
        if let Some(session) = &view.session {
            page.length(", filters ", session.subscriptions.len());
        }
    }
    page.end();
}

/// What two passes made side by side: the numbers of their calls, the second answer of the first
/// pass, and that of the other.
pub(crate) fn print_beside(page: &mut Page, one: &Turn, other: &Turn) {
    print_numbers(page, one.before, one.number, other.number);
    print_latest(page, one);
    print_latest(page, other);
}

/// The latest answer of a turn.
fn print_latest(page: &mut Page, turn: &Turn) {
    if let Some(out) = &turn.out {
        print_answered(page, out);
    }
}

/// The least and the greatest number of two calls of a pass and one of another, if those of the
/// pass ascend and no two are the same; else all.
fn print_numbers(page: &mut Page, first: u64, second: u64, other: u64) {
    if first < second && other != first && other != second {
        page.number("calls ", first.min(other));
        page.number(" to ", second.max(other));
        page.text(", those of a pass in order\n");
    } else {
        page.number("calls ", first);
        page.number(" and ", second);
        page.number(" of a pass, ", other);
        page.text(" of another\n");
    }
}

/// How many deltas calls made, or why that is not told.
pub(crate) fn print_made(page: &mut Page, made: Result<Vec<(u64, Delta)>, CallFault>) {
    match &made {
        Ok(deltas) => print_length(page, "deltas ", deltas.len()),
        Err(fault) => print_uncalled(page, fault),
    }
    drop(made);
}
