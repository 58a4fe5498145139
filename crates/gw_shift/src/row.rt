//! A row of calls: what is made ready before the lock is taken, and what the row leaves.
//!
//! Nothing is wanted under the lock. So each call is shared twice before, once for the history and
//! once for the pass, and room is made for all that is answered.

ghost use Rattle.std.specs.Prelude.{◌≡◌, ◌≤◌, ◌<◌, ◌+◌, ◌^◌, ◌++◌, ◌∷◌, [], IfOk, length, map, vec_len, vec_capacity};
ghost use Rattle.std.specs.Arc.{arc_value};
ghost use Rattle.gw_answer.specs.Answers.{said};
ghost use Rattle.gw_shift.specs.Passes.{held_as, held_from};
ghost use Rattle.gw_shift.specs.inner.Passes.{call, calls_of};
ghost use Rattle.gw_shift.specs.inner.Rooms.{IsEmptyCallRow, IsRoomForCalls};

use super::entry::{Entry, HeldCall};
use gw_answer::three_shares;
use gw_node::{Answer, Reply, Step};
use std::alloc::{AllocError, Global};
use std::marker::Model;
use std::sync::Arc;

/// Two shares of a call. Contracts see the call.
#[derive(Drop)]
pub(crate) struct TwoShares {
    first: Arc<Step>,
    second: Arc<Step>,
}

impl Model for TwoShares {
    ghost use Rattle.std.specs.Prelude.{◌≡◌};
    ghost use Rattle.std.specs.Arc.{arc_value};
    ghost use Rattle.gw_answer.specs.declared.step.Step.{Step};

    ghost Value = { Step };

    ghost view = { λ s. arc_value s.first };

    ghost invariant = { λ s. arc_value s.second ≡ arc_value s.first };
}

/// Calls that were made.
#[derive(Drop)]
pub(crate) struct Row {
    /// As the history has them.
    pub(crate) entries: Vec<Entry>,
    /// As their pass has them.
    pub(crate) held: Vec<HeldCall>,
    /// What they were answered.
    pub(crate) answers: Vec<Answer>,
}

/// What a row of calls takes.
#[derive(Drop)]
pub(crate) struct Room {
    /// Two shares of each call.
    pub(crate) shares: Vec<TwoShares>,
    /// Room for what the node answers.
    pub(crate) replies: Vec<Reply>,
    /// Room for the calls.
    pub(crate) row: Row,
}

/// Two shares of a call.
fn two_shares(step: &Arc<Step>) -> Result<TwoShares, AllocError>
    ensures { IfOk result (λ shares. shares ≡ arc_value step.now) }
{
    let first = step.clone()?;
    Ok(TwoShares {
        second: first.clone()?,
        first,
    })
}

/// Two shares of each of these calls.
fn shares_of(alloc: Global, steps: &[Arc<Step>]) -> Result<Vec<TwoShares>, AllocError>
    ensures { IfOk result (λ all. all.items ≡ map arc_value steps.now) }
{
    let mut all = Vec::new(alloc);
    for step in steps {
        let shares = two_shares(step)?;
        all.reserve(1)?;
        all.push_reserved(shares);
    }
    Ok(all)
}

/// A row of no call, with room for so many.
fn empty_row(alloc: Global, count: usize) -> Result<Row, AllocError>
    ensures { IfOk result (IsEmptyCallRow count) }
{
    let entries = Vec::with_capacity(alloc, count)?;
    let held = Vec::with_capacity(alloc, count)?;
    let answers = Vec::with_capacity(alloc, count)?;
    Ok(Row {
        entries,
        held,
        answers,
    })
}

/// What a row of these calls takes.
pub(crate) fn room_for(alloc: Global, steps: &[Arc<Step>]) -> Result<Room, AllocError>
    ensures { IfOk result (IsRoomForCalls (map arc_value steps.now)) }
{
    let row = empty_row(alloc, steps.len())?;
    let replies = Vec::with_capacity(alloc, steps.len())?;
    let shares = shares_of(alloc, steps)?;
    Ok(Room {
        shares,
        replies,
        row,
    })
}

/// Moves what is in a list behind what is in another, where there is room for it.
pub(crate) fn move_behind<T: Drop>(there: &mut Vec<T>, more: &mut Vec<T>)
    requires { vec_len there.old + vec_len more.old ≤ vec_capacity there.old }
    ensures items { there.new.items ≡ there.old.items ++ more.old.items }
    ensures room { vec_capacity there.old ≤ vec_capacity there.new }
{
    match there.append(more) {
        Ok(()) => {}
        Err(_) => unreachable!(),
    }
}

/// Puts a call behind the others, with what it was answered.
#[tactic(auto, using(crate::proofs::Rows::told_more))]
fn put_in(row: &mut Row, place: u64, number: u64, step: TwoShares, reply: Reply)
    requires entries { vec_len row.old.entries < vec_capacity row.old.entries }
    requires held { vec_len row.old.held < vec_capacity row.old.held }
    requires answers { vec_len row.old.answers < vec_capacity row.old.answers }
    ensures entries { row.new.entries.items ≡ row.old.entries.items ++ call place step reply ∷ [] }
    ensures held { row.new.held.items ≡ row.old.held.items ++ held_as number step reply ∷ [] }
    ensures answers { map said row.new.answers.items
        ≡ map said row.old.answers.items ++ reply ∷ [] }
    ensures room { (vec_capacity row.new.entries ≡ vec_capacity row.old.entries)
        × (vec_capacity row.new.held ≡ vec_capacity row.old.held)
        × (vec_capacity row.new.answers ≡ vec_capacity row.old.answers) }
    ensures many { (vec_len row.new.entries ≡ vec_len row.old.entries + 1)
        × (vec_len row.new.held ≡ vec_len row.old.held + 1)
        × (vec_len row.new.answers ≡ vec_len row.old.answers + 1) }
{
    let TwoShares { first, second } = step;
    let (told, kept, entered) = three_shares(reply);
    row.entries.push_reserved(Entry {
        place,
        step: first,
        answer: entered,
    });
    row.held.push_reserved(HeldCall {
        number,
        step: second,
        answer: kept,
    });
    row.answers.push_reserved(told);
}

/// Puts the first of these calls into a row, with what they were answered: as many as there are
/// answers. The first has this number, and each other one the next.
pub(crate) fn row_of(
    place: u64,
    number: u64,
    mut row: Row,
    shares: Vec<TwoShares>,
    replies: Vec<Reply>,
) -> Row
    requires few { length replies.items ≤ length shares.items }
    requires empty { IsEmptyCallRow (length replies.items) row }
    requires numbers { number + length replies.items < 2 ^ 64 }
    ensures entries { result.entries.items ≡ calls_of place shares.items replies.items }
    ensures held { result.held.items ≡ held_from number shares.items replies.items }
    ensures answers { map said result.answers.items ≡ replies.items }
    ensures many { (vec_len result.entries ≡ length replies.items)
        × (vec_len result.held ≡ length replies.items)
        × (vec_len result.answers ≡ length replies.items) }
{
    let mut left = shares.into_iter();
    let mut next = number;
    for reply in replies {
        let Some(step) = left.next() else {
            unreachable!()
        };
        put_in(&mut row, place, next, step, reply);
        next += 1;
    }
    row
}
