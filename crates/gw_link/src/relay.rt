//! What all links of a gateway share: what is handed on from one to the others, and who is linked.

ghost use Rattle.std.specs.Prelude.{◌≡◌, ◌≤◌, IfOk, length};
ghost use Rattle.gw_link.specs.inner.Weights as spec;

use crate::calling::End;
use crate::counts::{LinkCounts, LinkNumbers};
use crate::link::Origin;
use crate::trouble::{Report, Tally, Trouble, count_one, report_of};
use gw_relay::{
    Name, brings_news, brings_unnoted, is_lost, may_answer, may_link, name_of, replaces,
};
use gw_shift::gw_node::{Out, Step};
use octets::NoMemory;
use rep_digest::{ClientEntry, Digest};
use rep_ops::{Delta, Op};
use std::alloc::Global;
use std::collections::VecDeque;
use std::sync::{Arc, Mutex, Wait};

/// How many names are noted before the digest is worked out again, which covers them.
const MOST_NOTES: usize = 4_096;

/// How many deltas wait at most for the links that have not handed them on yet. A link that is
/// further behind is given up: over a new one the other end asks for what it lacks.
const MOST_HANDED: usize = 16_384;

/// How many octets of messages they have at most.
const MOST_OCTETS: usize = 67_108_864;

/// A link whose other end has said its number.
#[derive(Drop)]
struct Place {
    id: u64,
    /// The number of the other end.
    other: u8,
    /// The other end made the connection.
    is_accepted: bool,
    /// What whoever watches is shown of the link.
    numbers: LinkNumbers,
    /// A later connection said the same number.
    is_over: bool,
    /// The other end has asked for what it lacks.
    has_asked: bool,
    /// The number of the next delta that is to be handed on over the link.
    at: u64,
}

/// A delta that is handed on.
#[derive(Drop)]
struct Handed {
    /// The gateway that told it, or 0 where that has not said its number.
    giver: u8,
    octets: usize,
    step: Arc<Step>,
}

/// When a digest of a gateway was last answered.
#[derive(Drop)]
struct Answered {
    number: u8,
    second: u64,
}

struct Board {
    /// The gateways that may be linked: all, where none is named.
    numbers: Vec<u8>,
    /// What the gateway had when its digest was last worked out.
    known: Option<Arc<Out>>,
    /// What it made and took since.
    notes: Vec<Name>,
    /// The number of the last call of the shift whose delta was noted as made here.
    made: u64,
    places: Vec<Place>,
    /// How many places there ever were.
    ids: u64,
    /// How often a place came or went.
    changes: u64,
    handed: VecDeque<Handed>,
    /// The number of the first of them.
    first: u64,
    /// How many octets they have.
    octets: usize,
    answers: Vec<Answered>,
    tallies: Vec<Tally>,
    /// How many messages were heard.
    heard: u64,
    /// How many of them are worked on.
    working: u64,
    /// The number of this gateway, while it is looked for what it made and lost; else 0.
    own: u8,
    /// The gateway that told such an operation.
    found_by: Option<u8>,
}

impl Drop for Board {
    fn drop(self) {
        let Board {
            numbers,
            known,
            notes,
            made: _,
            places,
            ids: _,
            changes: _,
            handed,
            first: _,
            octets: _,
            answers,
            tallies,
            heard: _,
            working: _,
            own: _,
            found_by: _,
        } = self;
        drop(numbers);
        drop(known);
        drop(notes);
        drop(places);
        drop(handed);
        drop(answers);
        drop(tallies);
    }
}

/// What all links of a gateway share: what is handed on from one to the others, who is linked, when
/// digests were answered, and what an operator should hear of. It outlives a shift. Any thread may
/// call each method, which holds the relay's lock while it runs, and takes no other.
pub struct Relay {
    board: Mutex<Board>,
}

impl Drop for Relay {
    fn drop(self) {
        let Relay { board } = self;
        drop(board);
    }
}

impl Relay {
    /// No link is open, and nothing is known. These gateways may be linked: all, where none is
    /// named.
    pub fn new(alloc: Global, numbers: Vec<u8>) -> Relay {
        Relay {
            board: Mutex::new(Board {
                numbers,
                known: None,
                notes: Vec::new(alloc),
                made: 0,
                places: Vec::new(alloc),
                ids: 0,
                changes: 0,
                handed: VecDeque::new(alloc),
                first: 0,
                octets: 0,
                answers: Vec::new(alloc),
                tallies: Vec::new(alloc),
                heard: 0,
                working: 0,
                own: 0,
                found_by: None,
            }),
        }
    }

    /// A shift begins, and numbers its calls from 1.
    pub fn begin_shift<T: Wait>(&self, rt: &T) {
        let mut board = self.board.lock(rt);
        board.made = 0;
    }

    /// Whether a gateway may be linked.
    pub(crate) fn may_link<T: Wait>(&self, rt: &T, number: u8) -> bool {
        let board = self.board.lock(rt);
        may_link(board.numbers.as_slice(), number)
    }

    /// The other end of a link has said its number: from now on what is handed on goes there too.
    /// An older link that was accepted, and whose other end said the same, is over: who dials again
    /// has lost it. That an operator should hear of, as two gateways may have that number. Nothing
    /// where memory ran out.
    pub(crate) fn join<T: Wait>(&self, rt: &T, other: u8, origin: Origin) -> Option<u64> {
        let is_accepted = origin == Origin::Accepted;
        let mut board = self.board.lock(rt);
        let id = board.ids;
        let at = board.first.saturating_add(board.handed.len() as u64);
        let mut is_double = false;
        for place in board.places.as_mut_slice() {
            if place.other == other && place.is_accepted == is_accepted && !place.is_over {
                is_double = true;
            }
            if replaces(is_accepted, other, place.is_accepted, place.other) {
                place.is_over = true;
            }
        }
        if is_double {
            count_one(&mut board.tallies, Trouble::Twice, other);
        }
        let place = Place {
            id,
            other,
            is_accepted,
            numbers: LinkNumbers::new(id, origin, other),
            is_over: false,
            has_asked: false,
            at,
        };
        if board.places.push(place).is_err() {
            return None;
        }
        board.ids = id.saturating_add(1);
        board.changes = board.changes.saturating_add(1);
        Some(id)
    }

    /// The link of this place is closed.
    pub fn leave<T: Wait>(&self, rt: &T, place: Option<u64>) {
        let Some(id) = place else {
            return;
        };
        let mut board = self.board.lock(rt);
        board.places.retain(|place| place.id != id);
        board.changes = board.changes.saturating_add(1);
        forget_told(&mut board);
    }

    /// So much was counted of the link of this place, over which octets last came in this second.
    pub(crate) fn note_counts<T: Wait>(&self, rt: &T, id: u64, heard: u64, counts: LinkCounts) {
        let mut board = self.board.lock(rt);
        for place in board.places.as_mut_slice() {
            if place.id == id {
                place.numbers.heard = heard;
                place.numbers.counts = counts;
            }
        }
    }

    /// The links whose other ends have said their numbers, in numbers: the first of them in the
    /// order in which they did, at most so many.
    pub fn links<T: Wait>(
        &self,
        rt: &T,
        alloc: Global,
        most: usize,
    ) -> Result<Vec<LinkNumbers>, NoMemory>
        ensures { IfOk result (λ all. length all.items ≤ most) }
    {
        let board = self.board.lock(rt);
        numbers_of(alloc, board.places.as_slice(), most)
    }

    /// How often a link came or went; nothing where the link of this place is over.
    pub(crate) fn changes<T: Wait>(&self, rt: &T, id: u64) -> Option<u64> {
        let board = self.board.lock(rt);
        for place in board.places.as_slice() {
            if place.id == id && place.is_over {
                return None;
            }
        }
        Some(board.changes)
    }

    /// The numbers of the gateways that this one is linked with, but for one of them.
    pub(crate) fn linked<T: Wait>(
        &self,
        rt: &T,
        alloc: Global,
        but: u8,
    ) -> Result<Vec<u8>, NoMemory> {
        let board = self.board.lock(rt);
        let mut numbers: Vec<u8> = Vec::new(alloc);
        for place in board.places.as_slice() {
            if place.other != but && !numbers.as_slice().contains(&place.other) {
                numbers.push(place.other)?;
            }
        }
        Ok(numbers)
    }

    /// The digest was worked out, unless it would be too large. What was noted is forgotten: this
    /// one covers it, but for what was taken at the same time, which may be handed on once more.
    pub(crate) fn learn<T: Wait>(&self, rt: &T, out: Option<Arc<Out>>) {
        let mut board = self.board.lock(rt);
        board.notes.clear();
        if out.is_some() {
            board.known = out;
        }
    }

    /// Whether so much was noted that the digest is to be worked out again.
    pub(crate) fn is_long<T: Wait>(&self, rt: &T) -> bool {
        self.board.lock(rt).notes.len() >= MOST_NOTES
    }

    /// Whether a delta that comes brings anything that is new here.
    pub(crate) fn is_news<T: Wait>(&self, rt: &T, step: &Step) -> bool {
        match step {
            Step::Take { delta } => brings(&self.board.lock(rt), delta.ops()),
            _ => false,
        }
    }

    /// Hands on a delta that a gateway told and that was new here. Where memory runs out it is told
    /// by digests alone.
    pub(crate) fn hand_on<T: Wait>(&self, rt: &T, alloc: Global, giver: u8, step: Arc<Step>) {
        let mut board = self.board.lock(rt);
        let octets = match &*step {
            Step::Take { delta } => {
                note_all(alloc, &mut board, delta.ops());
                weight(delta.ops())
            }
            _ => 0,
        };
        let handed = Handed {
            giver,
            octets,
            step,
        };
        if board.handed.push_back(handed).is_ok() {
            board.octets = board.octets.saturating_add(octets);
        }
        forget_told(&mut board);
        forget_most(&mut board);
    }

    /// Notes a delta that the gateway made by the call of this number, unless it was noted.
    pub(crate) fn note_made<T: Wait>(&self, rt: &T, alloc: Global, number: u64, delta: &Delta) {
        let mut board = self.board.lock(rt);
        if number > board.made {
            board.made = number;
            note_all(alloc, &mut board, delta.ops());
        }
    }

    /// The next delta that is to be handed on over the link of a place, with the gateway that told
    /// it. The link is lost where it is too far behind.
    pub(crate) fn next<T: Wait>(&self, rt: &T, id: u64) -> Result<Option<(u8, Arc<Step>)>, End> {
        let mut board = self.board.lock(rt);
        let at = go_on(&mut board, id);
        let Some(at) = at else {
            return Err(End::Lost);
        };
        let found = match board.handed.get(at) {
            None => Ok(None),
            Some(handed) => match handed.step.clone() {
                Ok(step) => Ok(Some((handed.giver, step))),
                Err(_) => Err(End::Memory),
            },
        };
        forget_told(&mut board);
        found
    }

    /// A trouble happened with a gateway, 0 where it is not known which.
    pub fn note_trouble<T: Wait>(&self, rt: &T, trouble: Trouble, number: u8) {
        let mut board = self.board.lock(rt);
        count_one(&mut board.tallies, trouble, number);
    }

    /// What an operator is to be told in this second, if anything. From now on it was told.
    pub fn report<T: Wait>(&self, rt: &T, second: u64) -> Option<Report> {
        let mut board = self.board.lock(rt);
        report_of(board.tallies.as_mut_slice(), second)
    }

    /// From now on it is noted if another gateway tells what the one of this number must have made,
    /// and has lost. With 0 that is not noted any more.
    pub fn look_for_lost<T: Wait>(&self, rt: &T, own: u8) {
        self.board.lock(rt).own = own;
    }

    /// The gateway that told what this one must have made itself, and has lost.
    pub fn found_by<T: Wait>(&self, rt: &T) -> Option<u8> {
        self.board.lock(rt).found_by
    }

    /// How many messages were heard, how many of the peers that were dialled have asked for what
    /// they lack, and whether a message is worked on now.
    pub fn heard<T: Wait>(&self, rt: &T) -> (u64, u64, bool) {
        let board = self.board.lock(rt);
        let mut asked = 0u64;
        for place in board.places.as_slice() {
            if place.has_asked && !place.is_accepted {
                asked = asked.saturating_add(1);
            }
        }
        (board.heard, asked, board.working > 0)
    }

    /// A message was heard over the link of this place, and is worked on.
    pub(crate) fn note_heard<T: Wait>(&self, rt: &T, id: Option<u64>, step: &Step) {
        let mut board = self.board.lock(rt);
        board.heard = board.heard.saturating_add(1);
        board.working = board.working.saturating_add(1);
        if matches!(step, Step::Answer { .. }) {
            for place in board.places.as_mut_slice() {
                if Some(place.id) == id {
                    place.has_asked = true;
                }
            }
        }
    }

    /// Messages are worked on, of which none is noted as heard yet.
    pub(crate) fn note_working<T: Wait>(&self, rt: &T) {
        let mut board = self.board.lock(rt);
        board.working = board.working.saturating_add(1);
    }

    /// A message was worked on.
    pub(crate) fn note_worked<T: Wait>(&self, rt: &T) {
        let mut board = self.board.lock(rt);
        board.working = board.working.saturating_sub(1);
    }

    /// Notes whether a delta, which a gateway told, has what the one of `look_for_lost` must have
    /// made, and has lost. Says whether it has.
    pub(crate) fn note_lost<T: Wait>(&self, rt: &T, giver: u8, step: &Step) -> bool {
        let mut board = self.board.lock(rt);
        if board.own == 0 || !tells_lost(&board, step) {
            return false;
        }
        board.found_by = Some(giver);
        true
    }

    /// Whether a digest of a gateway may be answered in this second.
    pub(crate) fn may_answer<T: Wait>(&self, rt: &T, number: u8, second: u64) -> bool {
        let board = self.board.lock(rt);
        for answer in board.answers.as_slice() {
            if answer.number == number && !may_answer(answer.second, second) {
                return false;
            }
        }
        true
    }

    /// A digest of a gateway was answered in this second.
    pub(crate) fn note_answer<T: Wait>(&self, rt: &T, number: u8, second: u64) {
        let mut board = self.board.lock(rt);
        board.answers.retain(|answer| answer.number != number);
        let _ = board.answers.push(Answered { number, second });
    }
}

/// The links at these places in numbers, at most so many.
fn numbers_of(alloc: Global, places: &[Place], most: usize) -> Result<Vec<LinkNumbers>, NoMemory>
    ensures { IfOk result (λ all. length all.items ≤ most) }
{
    let mut all = Vec::new(alloc);
    let mut room = most;
    let mut left = places;
    'places: while let Some((place, rest)) = left.split_first() {
        if room == 0 {
            return Ok(all);
        }
        all.reserve(1)?;
        all.push_reserved(place.numbers);
        room -= 1;
        left = rest;
    }
    Ok(all)
}

/// Whether a delta has what this gateway must have made itself, and has lost. Before its digest was
/// worked out that is not known.
fn tells_lost(board: &Board, step: &Step) -> bool {
    let Step::Take { delta } = step else {
        return false;
    };
    let Some(out) = board.known.as_ref() else {
        return false;
    };
    match out.digest.as_ref() {
        None => false,
        Some(digest) => delta.ops().iter().any(|op| is_lost(
            digest,
            board.notes.as_slice(),
            board.own,
            op,
        )),
    }
}

/// Whether one of the operations is new here.
fn brings(board: &Board, ops: &[Op]) -> bool {
    if let Some(out) = board.known.as_ref() {
        if let Some(digest) = out.digest.as_ref() {
            return brings_news(digest, board.notes.as_slice(), ops);
        }
    }
    brings_unnoted(board.notes.as_slice(), ops)
}

/// Notes the names of operations. Where memory runs out they may be taken for new once more.
fn note_all(alloc: Global, board: &mut Board, ops: &[Op]) {
    for op in ops {
        if let Ok(name) = name_of(alloc, op) {
            let _ = board.notes.push(name);
        }
    }
}

/// Some measure of the octets of operations.
pub(crate) fn weight(ops: &[Op]) -> usize {
    let mut octets = 0usize;
    for op in ops {
        octets = octets.saturating_add(weight_of_operation(op));
    }
    octets
}

/// Some measure of the octets of an operation: what is in it of a message, and some for the rest.
fn weight_of_operation(op: &Op) -> usize
    ensures { result ≡ spec.weight_of op.now }
{
    match op {
        Op::Session { .. } => 128,
        Op::Put { put, .. } => put.body.len() + 128,
        Op::Ack { .. } => 128,
        Op::Retain { retained, .. } => retained.body.len() + 384,
    }
}

/// Some measure of the octets of a digest.
pub(crate) fn weight_of_digest(digest: &Digest) -> usize {
    let mut octets = digest.topics().len().saturating_mul(128);
    for entry in digest.clients() {
        octets = octets.saturating_add(weight_of_entry(entry));
    }
    octets
}

/// Some measure of the octets of what a digest says of a client.
fn weight_of_entry(entry: &ClientEntry) -> usize {
    let mut octets = 64usize;
    for said in entry.origins.as_slice() {
        let ranges = said.acknowledged.len().saturating_add(said.waiting.len());
        octets = octets.saturating_add(ranges.saturating_mul(16).saturating_add(64));
    }
    octets
}

/// Where the next delta of a place is among those that are handed on, if there is one; the place
/// goes on behind it. Nothing where the place is gone or too far behind.
fn go_on(board: &mut Board, id: u64) -> Option<usize> {
    let first = board.first;
    let end = first.saturating_add(board.handed.len() as u64);
    for place in board.places.as_mut_slice() {
        if place.id == id {
            if place.at < first {
                return None;
            }
            let at = place.at.saturating_sub(first) as usize;
            if place.at < end {
                place.at = place.at.saturating_add(1);
            }
            return Some(at);
        }
    }
    None
}

/// Forgets the deltas that went to each link.
fn forget_told(board: &mut Board) {
    let mut least = board.first.saturating_add(board.handed.len() as u64);
    for place in board.places.as_slice() {
        if place.at < least {
            least = place.at;
        }
    }
    for _ in board.first..least {
        forget_first(board);
    }
}

/// Forgets the first deltas where there are more than may wait.
fn forget_most(board: &mut Board) {
    for _ in 0..board.handed.len() {
        if board.handed.len() <= MOST_HANDED && board.octets <= MOST_OCTETS {
            return;
        }
        forget_first(board);
    }
}

/// Forgets the first delta that is handed on.
fn forget_first(board: &mut Board) {
    if let Some(handed) = board.handed.pop_front() {
        board.octets = board.octets.saturating_sub(handed.octets);
        board.first = board.first.saturating_add(1);
    }
}
