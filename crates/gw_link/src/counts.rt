//! What is counted of a link, for whoever watches the gateway.

ghost use Rattle.std.specs.Prelude.{◌≡◌};

use crate::calling::End;
use crate::link::{Link, Origin};
use crate::trouble::{Trouble, trouble_of};
use gw_shift::gw_node::{Answer, NodeFault, Step};
use rep_ops::Delta;

/// What is counted of a link since it was made.
#[derive(Clone, Copy)]
pub struct LinkCounts {
    /// Octets that came.
    pub received: u64,
    /// Octets that went out.
    pub sent: u64,
    /// Octets that wait to go out, without those of an answer.
    pub waiting: u64,
    /// Deltas that this end told, also those of answers.
    pub told: u64,
    /// Deltas that came and were taken.
    pub taken: u64,
    /// Deltas that came and were refused, since they contradict what is kept.
    pub conflicts: u64,
    /// Deltas that came and were refused, since a limit is met.
    pub limits: u64,
    /// Deltas that came and were refused for another cause.
    pub others: u64,
    /// Operations of the last answer that this end gave.
    pub answered: u64,
}

/// A link whose other end has said its number, in numbers.
#[derive(Clone, Copy)]
pub struct LinkNumbers {
    /// Its place, which no other link ever has.
    pub place: u64,
    /// Which end made the connection.
    pub origin: Origin,
    /// The number of the other end.
    pub other: u8,
    /// The second of the machine's clock in which octets last came; 0 if none did.
    pub heard: u64,
    /// What was counted.
    pub counts: LinkCounts,
}

impl LinkNumbers {
    /// A link of which nothing was counted.
    pub fn new(place: u64, origin: Origin, other: u8) -> LinkNumbers
        ensures { (result.place ≡ place) × (result.origin ≡ origin) × (result.other ≡ other) }
    {
        LinkNumbers {
            place,
            origin,
            other,
            heard: 0,
            counts: no_counts(),
        }
    }
}

/// Nothing was counted.
pub(crate) fn no_counts() -> LinkCounts {
    LinkCounts {
        received: 0,
        sent: 0,
        waiting: 0,
        told: 0,
        taken: 0,
        conflicts: 0,
        limits: 0,
        others: 0,
        answered: 0,
    }
}

/// So many more.
pub(crate) fn add(count: &mut u64, more: usize) {
    *count = count.saturating_add(more as u64);
}

/// So many octets came, in this second.
pub(crate) fn note_read<S: Drop>(link: &mut Link<S>, size: usize, second: u64) {
    link.heard = Some(second);
    add(&mut link.counts.received, size);
}

/// What was counted, with what waits now.
pub(crate) fn counts_of<S: Drop>(link: &Link<S>) -> LinkCounts {
    let mut counts = link.counts;
    counts.waiting = link.behind as u64;
    counts
}

/// Whether a call takes a delta.
pub(crate) fn is_delta(step: &Step) -> bool {
    match step {
        Step::Take { .. } => true,
        _ => false,
    }
}

/// The gateway answered what came, a delta or a digest, if it was asked.
pub(crate) fn count_answer(
    counts: &mut LinkCounts,
    is_taken: bool,
    answered: &Result<Answer, End>,
) {
    match answered {
        Ok(answer) if is_taken => count_taken(counts, answer),
        Ok(answer) => count_answered(counts, answer),
        Err(_) => {}
    }
}

/// A delta was taken, or refused.
fn count_taken(counts: &mut LinkCounts, answer: &Answer) {
    match answer {
        Ok(_) => add(&mut counts.taken, 1),
        Err(fault) => count_refusal(counts, fault),
    }
}

/// A digest was answered, or not.
fn count_answered(counts: &mut LinkCounts, answer: &Answer) {
    if let Ok(out) = answer {
        counts.answered = operations_of(out.answer.as_slice());
    }
}

/// How many operations an answer has.
fn operations_of(deltas: &[Delta]) -> u64 {
    let mut operations = 0u64;
    for delta in deltas {
        add(&mut operations, delta.ops().len());
    }
    operations
}

/// A delta was refused.
fn count_refusal(counts: &mut LinkCounts, fault: &NodeFault) {
    match trouble_of(fault) {
        Some(Trouble::Conflict) => add(&mut counts.conflicts, 1),
        Some(Trouble::TooMuch) => add(&mut counts.limits, 1),
        _ => add(&mut counts.others, 1),
    }
}
