//! Calls one after the other, of which what they make and take is written at once.
//!
//! A row begins with a call that has something to write, so that no answer waits for a write which
//! its own call does not need. The calls behind it are carried out on what those before them led
//! to, up to one that cannot stand in a row. Then all records go out in one append with one sync.
//! Where that fails, what was replaced comes back from where it lay aside, and the local state from
//! its copy: the first call is told so, and for those behind it the node is halted.

ghost use Rattle.std.specs.Prelude.{◌≡◌, ◌≤◌, ◌<◌, ◌+◌, ◌∷◌, [], false, map, length, vec_len, vec_capacity, Err, IfOk};
ghost use Rattle.std.specs.Arc.{arc_value};
ghost use Rattle.gw_answer.specs.declared.refusal.Refusal.TheVariants as refusals;
ghost use Rattle.gw_answer.specs.declared.step.Step.TheVariants as steps;
ghost use Rattle.gw_node.specs.Parts.{state_of};
ghost use Rattle.gw_node.specs.Parts as parts;
ghost use Rattle.gw_node.specs.inner.Ahead.{IsWriter};
ghost use Rattle.gw_node.specs.inner.Rows.{WrittenAllAs, OneMore, WentOn, excused, EndedAs, IsFinished, RowCall};
ghost use Rattle.jr_journal.specs.Parts.{is_stopped};

use super::ahead::{Most, carry_ahead, go_ahead, take_ahead};
use super::carrying::{write_and_apply, write_and_take};
use super::handling::handle_step;
use super::looking::{Left, look};
use super::node::Node;
use gw_answer::{Out, Refusal, Shares, Step};
use jr_journal::{Disk, Journal, JournalFault, Records};
use octets::{NoMemory, Sequence};
use rep_model::Replica;
use rep_ops::Delta;
use sn_local::Dialogs;
use sn_plan::Plan;
use std::alloc::Global;
use std::mem;
use std::sync::Arc;

/// How many octets of records there are at most before a row ends.
pub const MOST_OF_A_ROW: usize = 1_048_576;

/// What a row has at most. To copy what more operations of a call replace would take longer than a
/// sync.
pub(crate) const USUAL: Most = Most {
    operations: 64,
    octets: MOST_OF_A_ROW,
};

/// A row that has all that memory holds.
pub(crate) const WHOLE: Most = Most {
    operations: usize::MAX,
    octets: usize::MAX,
};

/// What a node answers to a call, in shares.
pub type Reply = Result<Shares, Refusal>;

/// What the calls of a row did that is not written yet.
#[derive(Drop)]
struct Unwritten<R: Replica> {
    /// What their deltas replaced.
    aside: R,
    /// The records of their deltas.
    records: Records,
}

/// A row that is not written yet.
#[derive(Drop)]
struct Row<R: Replica> {
    /// What its calls did.
    unwritten: Unwritten<R>,
    /// The local state before it.
    dialogs: Dialogs,
}

/// A row whose first call was carried out.
#[derive(Drop)]
struct Begun<R: Replica> {
    /// The row.
    row: Row<R>,
    /// What that call is answered.
    answer: Shares,
    /// And if the write fails.
    excuse: Shares,
}

/// The calls of a row.
#[derive(Clone, Copy)]
struct Calls<'a> {
    /// The first of them.
    first: &'a Step,
    /// Those behind it.
    rest: &'a [Arc<Step>],
    /// How much there is at most in the row.
    most: Most,
}

/// A place for what a row replaces, and a copy of the local state.
fn places<R: Replica, D: Disk + Drop>(
    alloc: Global,
    node: &Node<R, D>,
) -> Result<(R, Dialogs), NoMemory>
    ensures can { IfOk result (λ made. R.can_go_back node.now.replica made.0) }
    ensures back { IfOk result (λ made. R.back node.now.replica made.0 ≡ R.kept node.now.replica) }
    ensures local { IfOk result (λ made. made.1.local ≡ node.now.dialogs.local) }
{
    let Ok(aside) = node.replica.aside(alloc) else {
        return Err(NoMemory);
    };
    let Ok(dialogs) = node.dialogs.copied(alloc) else {
        drop(aside);
        return Err(NoMemory);
    };
    Ok((aside, dialogs))
}

impl<R: Replica> Row<R> {
    ghost use Rattle.std.specs.Prelude.{◌≡◌, [], IfOk};

    /// A row of no call yet.
    fn new<D: Disk + Drop>(alloc: Global, node: &Node<R, D>) -> Result<Row<R>, NoMemory>
        ensures can { IfOk result (λ row. R.can_go_back node.now.replica row.unwritten.aside) }
        ensures back { IfOk result (λ row. R.back node.now.replica row.unwritten.aside
            ≡ R.kept node.now.replica) }
        ensures local { IfOk result (λ row. row.dialogs.local ≡ node.now.dialogs.local) }
        ensures records { IfOk result (λ row. row.unwritten.records ≡ []) }
    {
        let (aside, dialogs) = match places(alloc, node) {
            Ok(made) => made,
            Err(_) => return Err(NoMemory),
        };
        let records = Records::empty(alloc);
        Ok(Row {
            unwritten: Unwritten { aside, records },
            dialogs,
        })
    }
}

/// Carries out a call behind the first of a row, and puts its answer behind the others. False, and
/// nothing is done, where the call is for another row.
fn one_more<R: Replica, D: Disk + Drop>(
    alloc: Global,
    node: &mut Node<R, D>,
    unwritten: &mut Unwritten<R>,
    most: Most,
    step: &Step,
    replies: &mut Vec<Reply>,
) -> bool
    requires runs { parts.is_halted (state_of R.kept node.old) ≡ false }
    requires can { R.can_go_back node.old.replica unwritten.old.aside }
    requires room { vec_len replies.old < vec_capacity replies.old }
    ensures call { OneMore (state_of R.kept node.old) step.now replies.old.items
        unwritten.old.records result replies.new.items unwritten.new.records
        (state_of R.kept node.new) }
    ensures can { R.can_go_back node.new.replica unwritten.new.aside }
    ensures back { R.back node.new.replica unwritten.new.aside
        ≡ R.back node.old.replica unwritten.old.aside }
    ensures room { vec_capacity replies.new ≡ vec_capacity replies.old }
    ensures length { vec_len replies.new ≤ vec_len replies.old + 1 }
{
    if most.octets < unwritten.records.size() {
        return false;
    }
    match go_ahead(
        alloc,
        node,
        &mut unwritten.aside,
        &mut unwritten.records,
        most,
        step,
    ) {
        Some(reply) => {
            replies.push_reserved(reply);
            true
        }
        None => false,
    }
}

/// Carries out the calls behind the first of a row, up to one that is for another row.
fn go_on<R: Replica, D: Disk + Drop>(
    alloc: Global,
    node: &mut Node<R, D>,
    unwritten: &mut Unwritten<R>,
    most: Most,
    rest: &[Arc<Step>],
    replies: &mut Vec<Reply>,
)
    requires runs { parts.is_halted (state_of R.kept node.old) ≡ false }
    requires can { R.can_go_back node.old.replica unwritten.old.aside }
    requires room { vec_len replies.old + length rest.now ≤ vec_capacity replies.old }
    ensures calls { WentOn (state_of R.kept node.old) (map arc_value rest.now) replies.old.items
        unwritten.old.records replies.new.items unwritten.new.records (state_of R.kept node.new) }
    ensures can { R.can_go_back node.new.replica unwritten.new.aside }
    ensures back { R.back node.new.replica unwritten.new.aside
        ≡ R.back node.old.replica unwritten.old.aside }
{
    for index in 0..rest.len() {
        let step = &rest[index];
        if !one_more(alloc, node, unwritten, most, step, replies) {
            return;
        }
    }
}

/// Writes records to the journal.
fn write_all<D: Disk + Drop>(
    journal: &mut Journal<D>,
    records: &Records,
) -> Result<(), JournalFault>
    requires { is_stopped journal.old ≡ false }
    ensures { WrittenAllAs journal.old records.now result journal.new }
{
    journal.append_all(records)
}

/// To each that the node is halted.
fn halt_all(replies: &mut Vec<Reply>)
    ensures { replies.new.items ≡ map (λ reply. Err refusals.Halted) replies.old.items }
{
    for reply in replies.iter_mut() {
        *reply = Err(Refusal::Halted);
    }
}

/// The answers where the disk failed: the excuse to the first, and to all others that the node is
/// halted.
fn answers_failed(mut replies: Vec<Reply>, excuse: Shares) -> Vec<Reply>
    requires { 0 < length replies.items }
    ensures { result.items ≡ excused excuse replies.items }
{
    halt_all(&mut replies);
    replies[0] = Err(Refusal::Disk { excuse });
    replies
}

/// What a row replaced comes back.
fn go_back<R: Replica, D: Disk + Drop>(node: &mut Node<R, D>, aside: R, dialogs: Dialogs)
    requires { R.can_go_back node.old.replica aside }
    ensures config { (state_of R.kept node.new).config ≡ (state_of R.kept node.old).config }
    ensures records { (state_of R.kept node.new).records ≡ (state_of R.kept node.old).records }
    ensures kept { (state_of R.kept node.new).kept ≡ R.back node.old.replica aside }
    ensures local { (state_of R.kept node.new).local ≡ dialogs.local }
    ensures journal { (state_of R.kept node.new).journal ≡ (state_of R.kept node.old).journal }
{
    node.idle = None;
    node.tidy = false;
    node.replica.put_back(aside);
    drop(mem::replace(&mut node.dialogs, dialogs));
}

/// Writes the records of a row. Where the disk fails, what the row replaced comes back.
fn end_row<R: Replica, D: Disk + Drop>(
    node: &mut Node<R, D>,
    aside: R,
    dialogs: Dialogs,
    records: &Records,
    excuse: Shares,
    replies: Vec<Reply>,
) -> Vec<Reply>
    requires runs { parts.is_halted (state_of R.kept node.old) ≡ false }
    requires can { R.can_go_back node.old.replica aside }
    requires some { 0 < length replies.items }
    ensures { EndedAs (state_of R.kept node.old) (R.back node.old.replica aside) dialogs.local
        records.now excuse replies.items result.items (state_of R.kept node.new) }
{
    match write_all(&mut node.journal, records) {
        Ok(()) => {
            drop(aside);
            drop(dialogs);
            drop(excuse);
            replies
        }
        Err(_) => {
            go_back(node, aside, dialogs);
            answers_failed(replies, excuse)
        }
    }
}

/// Carries out the rest of a row whose first call was carried out, and writes the records.
fn finish<R: Replica, D: Disk + Drop>(
    alloc: Global,
    node: &mut Node<R, D>,
    begun: Begun<R>,
    most: Most,
    rest: &[Arc<Step>],
    mut replies: Vec<Reply>,
) -> Vec<Reply>
    requires runs { parts.is_halted (state_of R.kept node.old) ≡ false }
    requires can { R.can_go_back node.old.replica begun.row.unwritten.aside }
    requires room { (replies.items ≡ []) × (1 + length rest.now ≤ vec_capacity replies) }
    ensures { IsFinished (state_of R.kept node.old)
        (R.back node.old.replica begun.row.unwritten.aside) begun.row.dialogs.local
        begun.row.unwritten.records begun.excuse begun.answer (map arc_value rest.now) result.items
        (state_of R.kept node.new) }
{
    let Begun {
        row,
        answer,
        excuse,
    } = begun;
    let Row {
        mut unwritten,
        dialogs,
    } = row;
    replies.push_reserved(Ok(answer));
    go_on(alloc, node, &mut unwritten, most, rest, &mut replies);
    let Unwritten { aside, records } = unwritten;
    end_row(node, aside, dialogs, &records, excuse, replies)
}

/// An answer by itself.
fn alone(mut replies: Vec<Reply>, reply: Reply) -> Vec<Reply>
    requires { (replies.items ≡ []) × (0 < vec_capacity replies) }
    ensures { result.items ≡ reply ∷ [] }
{
    replies.push_reserved(reply);
    replies
}

/// A call that has a plan with operations, and the row that it begins. Without memory for a row the
/// call is carried out by itself, and so it is if it has too many operations.
fn own_row<R: Replica, D: Disk + Drop>(
    alloc: Global,
    node: &mut Node<R, D>,
    plan: Plan,
    excuse: Out,
    calls: Calls<'_>,
    replies: Vec<Reply>,
) -> Vec<Reply>
    requires runs { parts.is_halted (state_of R.kept node.old) ≡ false }
    requires writer { IsWriter (state_of R.kept node.old) calls.first.now plan excuse }
    requires room { (replies.items ≡ []) × (1 + length calls.rest.now ≤ vec_capacity replies) }
    ensures { RowCall (state_of R.kept node.old) calls.entry.first.now
        (map arc_value calls.entry.rest.now) result.items (state_of R.kept node.new) }
{
    if calls.most.operations < plan.ops.len() {
        return alone(replies, write_and_apply(alloc, node, plan, excuse));
    }
    let Ok(mut row) = Row::new(alloc, node) else {
        return alone(replies, write_and_apply(alloc, node, plan, excuse));
    };
    let Ok(excuse) = Shares::new(alloc, excuse) else {
        drop(row);
        drop(plan);
        return alone(replies, Err(Refusal::Memory));
    };
    let unwritten = &mut row.unwritten;
    match carry_ahead(
        alloc,
        node,
        &mut unwritten.aside,
        &mut unwritten.records,
        plan,
    ) {
        Ok(answer) => {
            let begun = Begun {
                row,
                answer,
                excuse,
            };
            finish(alloc, node, begun, calls.most, calls.rest, replies)
        }
        Err(refusal) => {
            drop(row);
            drop(excuse);
            alone(replies, Err(refusal))
        }
    }
}

/// A delta that comes, and the row that it begins. Without memory for a row it is taken by itself,
/// and so it is if it has no operations or too many.
fn taken_row<R: Replica, D: Disk + Drop>(
    alloc: Global,
    node: &mut Node<R, D>,
    delta: &Delta,
    most: Most,
    rest: &[Arc<Step>],
    replies: Vec<Reply>,
) -> Vec<Reply>
    requires runs { parts.is_halted (state_of R.kept node.old) ≡ false }
    requires room { (replies.items ≡ []) × (1 + length rest.now ≤ vec_capacity replies) }
    ensures { RowCall (state_of R.kept node.old) (steps.Take delta.now) (map arc_value rest.now)
        result.items (state_of R.kept node.new) }
{
    if delta.is_empty() || most.operations < delta.ops().len() {
        return alone(replies, write_and_take(alloc, node, delta));
    }
    let Ok(mut row) = Row::new(alloc, node) else {
        return alone(replies, write_and_take(alloc, node, delta));
    };
    let Ok(nothing) = Shares::new(alloc, Out::of_sends(alloc, Sequence::empty(alloc))) else {
        drop(row);
        return alone(replies, Err(Refusal::Memory));
    };
    let unwritten = &mut row.unwritten;
    match take_ahead(
        alloc,
        node,
        &mut unwritten.aside,
        &mut unwritten.records,
        delta,
    ) {
        Ok(answer) => {
            let begun = Begun {
                row,
                answer,
                excuse: nothing,
            };
            finish(alloc, node, begun, most, rest, replies)
        }
        Err(refusal) => {
            drop(row);
            drop(nothing);
            alone(replies, Err(refusal))
        }
    }
}

/// The first of these calls and the row that it begins; or the first alone, if it has nothing to
/// write, or is no call of a row. The answers are as many as the calls that are done.
pub(crate) fn play<R: Replica, D: Disk + Drop>(
    alloc: Global,
    node: &mut Node<R, D>,
    most: Most,
    first: &Step,
    rest: &[Arc<Step>],
    replies: Vec<Reply>,
) -> Vec<Reply>
    requires { (replies.items ≡ []) × (1 + length rest.now ≤ vec_capacity replies) }
    ensures { RowCall (state_of R.kept node.old) first.now (map arc_value rest.now) result.items
        (state_of R.kept node.new) }
{
    if rest.is_empty() || node.is_halted() {
        return alone(replies, handle_step(alloc, node, first));
    }
    if let Step::Take { delta } = first {
        return taken_row(alloc, node, delta, most, rest, replies);
    }
    match look(alloc, node, first) {
        Left::Told(reply) => alone(replies, reply),
        Left::Writes(plan, excuse) => {
            let calls = Calls { first, rest, most };
            own_row(alloc, node, plan, excuse, calls, replies)
        }
        Left::Alone => alone(replies, handle_step(alloc, node, first)),
    }
}
