//! The calls of a history, counted.

ghost use Rattle.std.specs.Prelude.{◌≡◌, ◌++◌, IfOk, OnOk, count_by, flat_map};
ghost use Rattle.gw_answer.specs.Answers.{said};
ghost use Rattle.gw_shift.specs.Tallies.{samples_of, samples_of_kind};
ghost use Rattle.gw_shift.specs.Tallies as spec;

use super::entry::Entry;
use gw_answer::{Answer, Step};
use gw_report::{ANSWERS, CallAnswer, CallKind, KINDS, Label, Sample};
use octets::{NoMemory, Sequence};
use std::alloc::Global;

/// A sample for each kind of call and each answer: how many calls of the history are so. Each kind
/// is counted by itself, so the history is walked once for each sample.
pub fn tally(alloc: Global, history: &[Entry]) -> Result<Sequence<Sample>, NoMemory>
    ensures { IfOk result (λ samples. samples ≡ samples_of history.now) }
{
    let mut samples = Vec::new(alloc);
    push_kinds(&mut samples, history, &ANSWERS, &KINDS)?;
    Ok(Sequence::new(samples))
}

/// The samples of these kinds.
fn push_kinds(
    samples: &mut Vec<Sample>,
    history: &[Entry],
    answers: &[CallAnswer],
    kinds: &[CallKind],
) -> Result<(), NoMemory>
    ensures { OnOk result (samples.new.items ≡ samples.old.items ++ flat_map
        (samples_of_kind history.now answers.now) kinds.now) }
{
    for kind in kinds {
        push_kind(samples, history, answers, *kind)?;
    }
    Ok(())
}

/// The samples of a kind.
fn push_kind(
    samples: &mut Vec<Sample>,
    history: &[Entry],
    answers: &[CallAnswer],
    kind: CallKind,
) -> Result<(), NoMemory>
    ensures { OnOk result
        (samples.new.items ≡ samples.old.items ++ samples_of_kind history.now answers.now
        kind) }
{
    for answer in answers {
        let value = count(history, kind, *answer) as u64;
        samples.push(Sample {
            label: Label::Call(kind, *answer),
            value,
        })?;
    }
    Ok(())
}

/// How many calls of the history are of this kind, and were answered so.
fn count(history: &[Entry], kind: CallKind, answer: CallAnswer) -> usize
    ensures { result ≡ count_by (spec.is_call kind answer) history.now }
{
    history
        .iter()
        .filter(|entry| is_call(*entry, kind, answer))
        .count()
}

/// Whether a call is of this kind, and was answered so.
fn is_call(entry: &Entry, kind: CallKind, answer: CallAnswer) -> bool
    ensures { result ≡ spec.is_call kind answer entry.now }
{
    call_kind(&entry.step).number() == kind.number()
        && reply_number(&entry.answer) == answer.number()
}

/// The kind of a call.
fn call_kind(step: &Step) -> CallKind
    ensures { result ≡ spec.call_kind step.now }
{
    match step {
        Step::Frame { .. } => CallKind::Frame,
        Step::Take { .. } => CallKind::Take,
        Step::Tick { .. } => CallKind::Tick,
        Step::View { .. } => CallKind::View,
        Step::Digest => CallKind::Digest,
        Step::Answer { .. } => CallKind::Answer,
        Step::Compact => CallKind::Compact,
        Step::Reopen => CallKind::Reopen,
    }
}

/// The number of an answer: 0 for a call that was done, else the number of the refusal.
fn reply_number(answer: &Answer) -> u8
    ensures { result ≡ spec.reply_number (said answer.now) }
{
    match answer {
        Ok(_) => 0,
        Err(fault) => fault.number(),
    }
}
