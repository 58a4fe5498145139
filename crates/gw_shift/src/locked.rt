//! What is under the lock of a shift.

ghost use Rattle.std.specs.Prelude.{◌≡◌, ◌≤◌, vec_len, vec_capacity};
ghost use Rattle.std.specs.Arc.{arc_value};
ghost use Rattle.gw_node.specs.Parts.{state_of};
ghost use Rattle.gw_shift.specs.declared.shift.TheConstants.{MAX_STEPS};
ghost use Rattle.gw_shift.specs.inner.Legal.{IsLegalFrom};

use super::ended::Ended;
use super::entry::Entry;
use super::fault::CallFault;
use super::first::First;
use super::gathering::shares;
use super::pass::Pass;
use super::row::{Room, Row, move_behind, row_of};
use gw_node::{Answer, Node, Out, Step};
use gw_report::Glimpse;
use jr_journal::Disk;
use octets::NoMemory;
use rep_model::Replica;
use rep_ops::Delta;
use std::alloc::Global;
use std::sync::Arc;

/// A node, with what it held when the shift was opened, and the history of its calls since, for
/// which all room was made then.
///
/// `first` is the node as it was when the shift was opened, its disk included. It takes no room.
/// Nothing but the calls of the history was done to the node since: `legal` says so.
#[derive(Drop)]
pub struct Locked<R: Replica, D: Disk> {
    pub(crate) node: Node<R, D>,
    pub(crate) first: First<Node<R, D>>,
    pub(crate) opening: Arc<Vec<Delta>>,
    pub(crate) history: Vec<Entry>,
    pub(crate) steps: u64,
    pub ghost most: { vec_len history ≤ steps },
    pub ghost room: { steps ≤ vec_capacity history },
    pub ghost few: { steps ≤ MAX_STEPS },
    pub ghost legal: { ∥ IsLegalFrom (state_of R.kept first.value) (arc_value opening).items
        history.items (state_of R.kept node) ∥₁ },
}

impl<R: Replica, D: Disk + Drop> Locked<R, D> {
    ghost use Rattle.std.specs.Prelude.{◌≡◌, ◌≤◌, ◌<◌, ◌+◌, ◌++◌, ◌∷◌, [], ℕ, IfOk, IfErr, vec_len, take, drop, length, map};
    ghost use Rattle.gw_answer.specs.Answers.{said};
    ghost use Rattle.gw_shift.specs.Calls.{Call};
    ghost use Rattle.gw_shift.specs.inner.Passes.{call, calls_of, made_after, told_by};
    ghost use Rattle.gw_shift.specs.Passes.{held_from};
    ghost use Rattle.gw_shift.specs.inner.Rooms.{IsRoomForCalls};
    ghost use Rattle.gw_shift.specs.inner.Calling.{Entered, EnteredInRow, NotEntered, IsNotTold};
    ghost use Rattle.gw_shift.specs.inner.Glances.{all_known};
    ghost use Rattle.gw_node.specs.Glancing.{glimpses_of};

    /// Makes a call at the node, and enters it. The answer comes back twice.
    fn make(&mut self, alloc: Global, place: u64, step: Arc<Step>) -> (Answer, Answer)
        requires room { vec_len self.old.history < self.old.steps }
        ensures history { self.new.history.items ≡ self.old.history.items ++ call place
            (arc_value step) (said result.0) ∷ [] }
        ensures second { said result.1 ≡ said result.0 }
        ensures first { self.new.first.value ≡ self.old.first.value }
        ensures opening { arc_value self.new.opening ≡ arc_value self.old.opening }
        ensures steps { self.new.steps ≡ self.old.steps }
    {
        let (first, second, third) = self.node.step(alloc, &step);
        self.history.push_reserved(Entry {
            place,
            step,
            answer: third,
        });
        (first, second)
    }

    /// A call of a pass. The answer comes back twice, with the call's number.
    pub(crate) fn call(
        &mut self,
        alloc: Global,
        pass: &Pass,
        step: Arc<Step>,
    ) -> Result<(Answer, Answer, u64), CallFault>
        ensures ok { IfOk result (λ r. Entered self.old.history.items pass.now (arc_value step)
            (said r.0) r.2 self.new.history.items) }
        ensures second { IfOk result (λ r. said r.1 ≡ said r.0) }
        ensures err { IfErr result (λ fault. NotEntered self.old.steps self.old.history.items
            pass.now fault self.new.history.items) }
        ensures first { self.new.first.value ≡ self.old.first.value }
        ensures opening { arc_value self.new.opening ≡ arc_value self.old.opening }
        ensures steps { self.new.steps ≡ self.old.steps }
    {
        let had = self.history.len() as u64;
        if had >= self.steps {
            return Err(CallFault::ShiftFull);
        }
        if had < pass.seen() {
            return Err(CallFault::Behind { held: had });
        }
        let (answer, kept) = self.make(alloc, pass.place, step);
        Ok((answer, kept, had + 1))
    }

    /// Makes the first of these calls at the node, at most so many, with one write. Those that were
    /// made are entered, all at once, so that what is locked is whole at each exit.
    fn make_all(
        &mut self,
        alloc: Global,
        place: u64,
        steps: &[Arc<Step>],
        most: usize,
        room: Room,
    ) -> Row
        requires some { (0 < most) × (most ≤ length steps.now) }
        requires left { vec_len self.old.history + most ≤ self.old.steps }
        requires room { IsRoomForCalls (map arc_value steps.now) room }
        ensures some { (0 < length result.answers.items) × (length result.answers.items ≤ most) }
        ensures history { self.new.history.items ≡ self.old.history.items
            ++ calls_of place (map arc_value steps.now) (map said result.answers.items) }
        ensures held { result.held.items ≡ held_from (vec_len self.old.history + 1)
            (map arc_value steps.now) (map said result.answers.items) }
        ensures many { vec_len result.held ≡ vec_len result.answers }
        ensures first { self.new.first.value ≡ self.old.first.value }
        ensures opening { arc_value self.new.opening ≡ arc_value self.old.opening }
        ensures steps { self.new.steps ≡ self.old.steps }
    {
        let Room {
            shares,
            replies,
            row,
        } = room;
        let number = self.history.len() as u64 + 1;
        let replies = self.node.step_all(alloc, &steps[..most], replies);
        let mut made = row_of(place, number, row, shares, replies);
        move_behind(&mut self.history, &mut made.entries);
        made
    }

    /// Calls of a pass in a row, as many as the history has left at most. What the pass and the
    /// caller have of those that were made comes back, with the number of the first.
    pub(crate) fn call_all(
        &mut self,
        alloc: Global,
        pass: &Pass,
        steps: &[Arc<Step>],
        room: Room,
    ) -> Result<(Row, u64), CallFault>
        requires some { 0 < length steps.now }
        requires room { IsRoomForCalls (map arc_value steps.now) room }
        ensures ok { IfOk result (λ r. EnteredInRow self.old.history.items pass.now
            (map arc_value steps.now) (map said r.0.answers.items) r.1 self.new.history.items) }
        ensures held { IfOk result (λ r. r.0.held.items
            ≡ held_from r.1 (map arc_value steps.now) (map said r.0.answers.items)) }
        ensures many { IfOk result (λ r. vec_len r.0.held ≡ vec_len r.0.answers) }
        ensures few { IfOk result (λ r. r.1 + vec_len r.0.answers ≤ MAX_STEPS + 1) }
        ensures err { IfErr result (λ fault. NotEntered self.old.steps self.old.history.items
            pass.now fault self.new.history.items) }
        ensures first { self.new.first.value ≡ self.old.first.value }
        ensures opening { arc_value self.new.opening ≡ arc_value self.old.opening }
        ensures steps { self.new.steps ≡ self.old.steps }
    {
        let had = self.history.len() as u64;
        if self.steps <= had {
            return Err(CallFault::ShiftFull);
        }
        if had < pass.seen() {
            return Err(CallFault::Behind { held: had });
        }
        let most = steps.len().min((self.steps - had) as usize);
        let row = self.make_all(alloc, pass.place, steps, most, room);
        Ok((row, had + 1))
    }

    /// Shares of what was answered to the calls above a number that made a delta, with the numbers
    /// of the calls: the first of them, at most so many.
    pub(crate) fn deltas_made_after(
        &self,
        alloc: Global,
        pass: &Pass,
        number: u64,
        max: usize,
    ) -> Result<Vec<(u64, Arc<Out>)>, CallFault>
        ensures ok { IfOk result (λ all. told_by all.items
            ≡ take max (made_after number (drop number self.now.history.items))) }
        ensures err { IfErr result (λ fault. IsNotTold self.now.history.items pass.now fault) }
    {
        let had = self.history.len() as u64;
        if had < pass.seen() {
            return Err(CallFault::Behind { held: had });
        }
        if number >= had {
            return Ok(Vec::new(alloc));
        }
        let behind = &self.history.as_slice()[number as usize..];
        let found = shares(alloc, behind, number, max)?;
        Ok(found)
    }

    /// The clients of the node at a glance whose ids are above these octets: the first of them, at
    /// most so many. It is no call.
    #[tactic(auto, using(crate::proofs::Handing::shown_few))]
    pub(crate) fn glance(
        &self,
        alloc: Global,
        above: &[u8],
        most: usize,
    ) -> Result<Vec<Glimpse>, NoMemory>
        ensures shown { IfOk result (λ all. all.items
            ≡ take most (glimpses_of (state_of R.kept self.now.node) above.now)) }
        ensures few { IfOk result (λ all. length all.items ≤ most) }
    {
        let all = self.node.glance(alloc, above, most)?;
        Ok(all)
    }

    /// For each of these clients, how many messages a gateway has put for it, as far as the node
    /// knows. It is no call.
    pub(crate) fn messages_known(
        &self,
        alloc: Global,
        clients: &[Glimpse],
        origin: u8,
    ) -> Result<Vec<u64>, NoMemory>
        ensures known { IfOk result (λ all. all.items
            ≡ all_known (state_of R.kept self.now.node).kept origin clients.now) }
        ensures many { IfOk result (λ all. length all.items ≡ length clients.now) }
    {
        let mut all = Vec::new(alloc);
        let mut left = clients;
        'clients: while let Some((client, rest)) = left.split_first() {
            all.reserve(1)?;
            all.push_reserved(self.node.messages_known(&client.client, origin));
            left = rest;
        }
        Ok(all)
    }

    /// The shift is over, and all of it comes back.
    pub(crate) fn ended(self) -> Ended<R, D>
        ensures node { result.node ≡ self.node }
        ensures opening { result.opening ≡ self.opening }
        ensures history { result.history ≡ self.history }
    {
        let Locked {
            node,
            first: _,
            opening,
            history,
            steps: _,
        } = self;
        Ended {
            node,
            opening,
            history,
        }
    }
}
