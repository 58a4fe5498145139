//! What a delta changes of one client, operation by operation. What it does not touch is not
//! copied.

ghost use Rattle.std.specs.Prelude.{◌≡◌, ◌+◌, ◌==◌, ◌≤◌, ◌||◌, [], ℕ, List, IsTrue, false, is_some, length, vec_capacity, filter, IfOk, OnOk};
ghost use Rattle.std.specs.List.{list_any};
ghost use Rattle.std.specs.FinMap.{find};
ghost use Rattle.rep_op.specs.declared.op.Op.TheVariants.{Session as OfSession, Put as OfPut, Ack};
ghost use Rattle.rep_op.specs.Orders.{operation_cmp, name_of, put_cmp};
ghost use Rattle.rep_op.specs.WellMade.{is_well_made};
ghost use Rattle.rep_shared.specs.Rows.{IsOwnOp};
ghost use Rattle.rep_entry.specs.declared.entry.Entry.{Entry as AnEntry};
ghost use Rattle.rep_log.specs.Logs.{known_on, whole_of};
ghost use Rattle.rep_log.specs.Mail.{covers, put_by_name, Rising, is_uncovered, weave};
ghost use Rattle.rep_entry.specs.Spans.{AreFreeOutside};
ghost use Rattle.rep_log.specs.Origins.{ranges_in, origins_after};
ghost use Rattle.rep_entry.specs.Entries.{whole_after};
ghost use Rattle.rep_entry.specs.inner.Entries.{parked_on, exceptions_on, HasLogRoom};

use super::change::Change;
use super::entry::Entry;
use super::news::News;
use super::searching::find_put;
use super::settling::count_settled;
use super::span::Span;
use octets::NoMemory;
use rep_log::{Acks, Known, Log, NamedOp};
use rep_model::Puts;
use rep_ops::{Op, Put, Stamp};
use sn_session::SessionOp;
use std::alloc::Global;
use std::mem;

/// What a delta changes of one client: the log and the acknowledgements as they will be, where
/// something came for them, the messages that are new, and the sequence numbers that are
/// acknowledged anew, as far as they reach.
pub struct Fresh {
    pub(crate) log: Option<Log>,
    pub(crate) news: News,
    pub(crate) acks: Option<Acks>,
    pub(crate) span: Span,
}

impl Drop for Fresh {
    fn drop(self) {
        let Fresh {
            log,
            news,
            acks,
            span: _,
        } = self;
        drop(log);
        drop(news);
        drop(acks);
    }
}

impl Fresh {
    ghost use Rattle.rep_entry.specs.Entries.{IsEntry, entry_row, IsFresh, fresh_row, IsFreshStep, base_of, left_on};
    ghost use Rattle.rep_entry.specs.Staging.{planned_row, IsChange, IsFit};

    /// A client of whom nothing is changed yet.
    pub fn new(alloc: Global) -> Fresh
        ensures fresh { (c : List ℕ) (entry : AnEntry) → IsEntry c entry → IsFresh c entry result }
        ensures row { (c : List ℕ) (entry : AnEntry) → IsEntry c entry
            → fresh_row c entry result ≡ entry_row c entry }
    {
        Fresh {
            log: None,
            news: News::new(alloc),
            acks: None,
            span: Span::none(),
        }
    }

    /// One operation more of the client, of whom this entry is held.
    pub fn note(&mut self, alloc: Global, entry: &Entry, op: &Op) -> Result<(), NoMemory>
        requires fresh { (c : List ℕ) × IsFresh c entry.now self.old }
        requires made { IsTrue (is_well_made op.now) }
        ensures { (c : List ℕ)
            → IsFresh c entry.now self.old
            → IsOwnOp c op.now
            → OnOk result (IsFreshStep c entry.now self.old self.new op.now) }
    {
        match op {
            Op::Session {
                stamp,
                counter,
                change,
                ..
            } => self.note_session(alloc, entry, (*stamp, *counter), change),
            Op::Put { put, .. } => self.note_put(alloc, entry, put),
            Op::Ack {
                origin,
                first,
                last,
                ..
            } => self.note_ack(alloc, entry, *origin, *first, *last),
            Op::Retain { .. } => Ok(()),
        }
    }

    /// A session operation more; one that is there changes nothing.
    fn note_session(
        &mut self,
        alloc: Global,
        entry: &Entry,
        name: (Stamp, u8),
        change: &SessionOp,
    ) -> Result<(), NoMemory>
        requires { (c : List ℕ) × IsFresh c entry.now self.old }
        ensures { (c : List ℕ)
            → IsFresh c entry.now self.old
            → IsTrue (is_well_made (OfSession c name.0 name.1 change.now))
            → OnOk result (IsFreshStep c entry.now self.old self.new
            (OfSession c name.0 name.1 change.now)) }
    {
        if is_known(&entry.known, &self.log, name) {
            return Ok(());
        }
        let change = change.copied(alloc)?;
        match begun(alloc, entry, self.log.take()) {
            Ok(mut log) => {
                let noted = log.note(alloc, &entry.known, name, change);
                drop(mem::replace(&mut self.log, Some(log)));
                Ok(noted?)
            }
            Err(fault) => {
                drop(change);
                Err(fault)
            }
        }
    }

    /// The acknowledgements of the messages first to last of an origin more.
    fn note_ack(
        &mut self,
        alloc: Global,
        entry: &Entry,
        origin: u8,
        first: u64,
        last: u64,
    ) -> Result<(), NoMemory>
        requires { (1 ≤ origin) × (1 ≤ first) × (first ≤ last) }
        ensures { (c : List ℕ)
            → IsFresh c entry.now self.old
            → OnOk result (IsFreshStep c entry.now self.old self.new (Ack c origin first last)) }
    {
        let mut acks = taken(alloc, &entry.acks, self.acks.take())?;
        acks.add(alloc, origin, first, last)?;
        self.acks = Some(acks);
        self.span = self.span.widened(first, last);
        Ok(())
    }

    /// A message more; one that is acknowledged, or there, changes nothing.
    fn note_put(&mut self, alloc: Global, entry: &Entry, put: &Put) -> Result<(), NoMemory>
        requires { (c : List ℕ) × IsFresh c entry.now self.old }
        ensures { (c : List ℕ)
            → IsFresh c entry.now self.old
            → IsTrue (is_well_made (OfPut c put.now))
            → OnOk result (IsFreshStep c entry.now self.old self.new (OfPut c put.now)) }
    {
        if self.has(entry, put) {
            return Ok(());
        }
        let put = put.copied(alloc)?;
        self.news.insert(put)?;
        Ok(())
    }

    /// Whether a message of that name is acknowledged, waits, or is among the new ones.
    fn has(&self, entry: &Entry, put: &Put) -> bool
        ensures { Rising entry.now.seen.pending
            → result ≡ (list_any (covers (name_of put.now))
            (ranges_in (origins_after entry.now.acks self.now.acks))
            || is_some (put_by_name (name_of put.now) entry.now.seen.pending)
            || is_some (find put_cmp (name_of put.now) self.now.news)) }
    {
        latest(&entry.acks, &self.acks).covers(put.seq, put.origin)
            || find_put(entry.seen.pending.as_slice(), put.seq, put.origin).is_some()
            || self.news.has(put.seq, put.origin)
    }

    /// What is staged of the client, of whom this entry is held.
    pub fn into_change(self, alloc: Global, entry: &Entry) -> Result<Change, NoMemory>
        ensures change { (c : List ℕ) → IsFresh c entry.now self → IfOk result IsChange }
        ensures fit { (c : List ℕ) → IsFresh c entry.now self
            → IfOk result (IsFit c (base_of entry.now)) }
        ensures counted { (c : List ℕ) → IsFresh c entry.now self
            → IfOk result (λ change. change.pending
            ≡ length (left_on (base_of entry.now) change.news.items change.acks)) }
        ensures row { (c : List ℕ) → IfOk result (λ change.
            planned_row c (base_of entry.now) change ≡ fresh_row c entry.now self) }
    {
        let Fresh {
            log,
            news,
            acks,
            span,
        } = self;
        let news = news.into_puts();
        let exceptions = exceptions_with(entry, &acks);
        let held = latest(&entry.acks, &acks);
        match prepared(alloc, entry, &log, news.as_slice(), span, held) {
            Ok((room, log_room, pending, parked)) => Ok(Change {
                log,
                log_room,
                parked,
                acks,
                span,
                exceptions,
                news,
                room,
                none: Puts::new(Vec::new(alloc)),
                pending,
            }),
            Err(fault) => {
                drop(log);
                drop(news);
                drop(acks);
                Err(fault)
            }
        }
    }
}

/// Room for the messages and for the session operations, and how many messages will wait, and how
/// many session operations.
fn prepared(
    alloc: Global,
    entry: &Entry,
    log: &Option<Log>,
    news: &[Put],
    span: Span,
    acks: &Acks,
) -> Result<(Vec<Put>, Vec<NamedOp>, usize, usize), NoMemory>
    ensures empty { IfOk result (λ made. made.0.items ≡ []) }
    ensures room { IfOk result (λ made. (length news.now == 0) ≡ false
        → length entry.now.seen.pending + length news.now ≤ vec_capacity made.0) }
    ensures log_empty { IfOk result (λ made. made.1.items ≡ []) }
    ensures log_room { IfOk result (λ made.
        HasLogRoom entry.now.known log.now (vec_capacity made.1)) }
    ensures pending { Rising entry.now.seen.pending
        → Rising news.now
        → AreFreeOutside span (ranges_in acks.now) entry.now.seen.pending
        → AreFreeOutside span (ranges_in acks.now) news.now
        → IfOk result (λ made. made.2 ≡ length (filter (is_uncovered (ranges_in acks.now))
        (weave entry.now.seen.pending news.now))) }
    ensures parked { IfOk result (λ made. made.3 ≡ parked_on entry.now log.now) }
{
    let waiting = entry.seen.pending.as_slice();
    let pending = count_settled(waiting, news, span, acks)?;
    let parked = parked_with(entry, log)?;
    let room = room_for(alloc, waiting, news)?;
    let log_room = log_room_for(alloc, &entry.known, log)?;
    Ok((room, log_room, pending, parked))
}

/// Whether an operation of that name is there.
fn is_known(known: &Known, log: &Option<Log>, name: (Stamp, u8)) -> bool
    ensures { result ≡ is_some (find operation_cmp name (known_on known.now log.now)) }
{
    match log {
        None => known.get(name.0, name.1).is_some(),
        Some(log) => log.get(known, name.0, name.1).is_some(),
    }
}

/// The log that is changed, or else that of the entry, to be changed.
fn begun(alloc: Global, entry: &Entry, log: Option<Log>) -> Result<Log, NoMemory>
    ensures { IfOk result (λ made. whole_of entry.now.known made ≡ whole_after entry.now log) }
{
    match log {
        Some(log) => Ok(log),
        None => Log::of(alloc, &entry.seen),
    }
}

/// The acknowledgements that are changed, or else those of the entry, to be changed.
fn taken(alloc: Global, held: &Acks, acks: Option<Acks>) -> Result<Acks, NoMemory>
    ensures { IfOk result (λ made. made ≡ origins_after held.now acks) }
{
    match acks {
        Some(acks) => Ok(acks),
        None => held.copied(alloc),
    }
}

/// The acknowledgements that are changed, or else those of the entry.
fn latest<'a>(held: &'a Acks, acks: &'a Option<Acks>) -> &'a Acks
    ensures { result.now ≡ origins_after held.now acks.now }
{
    match acks {
        Some(acks) => acks,
        None => held,
    }
}

/// How many session operations will wait for earlier ones.
fn parked_with(entry: &Entry, log: &Option<Log>) -> Result<usize, NoMemory>
    ensures { IfOk result (λ count. count ≡ parked_on entry.now log.now) }
{
    match log {
        Some(log) => log.count_parked(&entry.known),
        None => Ok(entry.parked),
    }
}

/// How many acknowledgements will stand above a number that is not acknowledged.
fn exceptions_with(entry: &Entry, acks: &Option<Acks>) -> u64
    ensures { result ≡ exceptions_on entry.now acks.now }
{
    match acks {
        Some(acks) => acks.exceptions(),
        None => entry.exceptions,
    }
}

/// Room for the session operations that are there and those behind them, and for half as many more,
/// so that they seldom move; none where none comes after them.
fn log_room_for(alloc: Global, known: &Known, log: &Option<Log>) -> Result<Vec<NamedOp>, NoMemory>
    ensures empty { IfOk result (λ room. room.items ≡ []) }
    ensures room { IfOk result (λ room. HasLogRoom known.now log.now (vec_capacity room)) }
{
    match log {
        Some(log) => {
            if log.anew {
                return Ok(Vec::new(alloc));
            }
            let count = with_half(known.as_slice().len(), log.more.as_slice().len())?;
            Ok(Vec::with_capacity(alloc, count)?)
        }
        None => Ok(Vec::new(alloc)),
    }
}

/// Both, and half as much more.
fn with_half(count: usize, more: usize) -> Result<usize, NoMemory>
    ensures { IfOk result (λ room. count + more ≤ room) }
{
    let count = count.checked_add(more).ok_or(NoMemory)?;
    let room = count.checked_add(count / 2).ok_or(NoMemory)?;
    Ok(room)
}

/// Room for the messages that wait and those that are new, and for half as many more, so that they
/// seldom move; none where none is new.
fn room_for(alloc: Global, waiting: &[Put], news: &[Put]) -> Result<Vec<Put>, NoMemory>
    ensures empty { IfOk result (λ room. room.items ≡ []) }
    ensures room { IfOk result (λ room. (length news.now == 0) ≡ false
        → length waiting.now + length news.now ≤ vec_capacity room) }
{
    if news.is_empty() {
        return Ok(Vec::new(alloc));
    }
    let room = with_half(waiting.len(), news.len())?;
    Ok(Vec::with_capacity(alloc, room)?)
}
