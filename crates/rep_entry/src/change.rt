//! What is staged of a client, and the move into its place.
//!
//! Each change brings room for all that will be there and half as much more, and gives it back if
//! the list itself has room. Contracts do not see how much room a list has, so the move cannot rely
//! on the list's own. Entries that come one by one are so moved less than three times each, on
//! average.

ghost use Rattle.std.specs.Prelude.{◌≡◌, ◌+◌, ◌≤◌, ◌++◌, [], ℕ, List, T, cond, false, length, vec_capacity};
ghost use Rattle.std.specs.FinMap.{is_sorted};
ghost use Rattle.rep_op.specs.Orders.{operation_cmp};
ghost use Rattle.rep_log.specs.Mail.{Rising};
ghost use Rattle.rep_log.specs.Origins.{origins_after};
ghost use Rattle.rep_entry.specs.Entries.{base_of};
ghost use Rattle.rep_entry.specs.Staging.{IsFit, IsChange, IsLogFit};
ghost use Rattle.rep_entry.specs.inner.Entries.{with_log};
ghost use Rattle.rep_entry.specs.Applied.{entry_applied};

use super::entry::Entry;
use super::settling::wait_on;
use super::span::Span;
use rep_log::{Acks, Known, Log, NamedOp};
use rep_model::Puts;
use rep_ops::Put;
use std::mem;

/// What is staged of a client: its log and its acknowledgements, where they change, and the
/// messages that are new.
#[derive(Drop)]
pub struct Change {
    /// The session operations as they will be, where some are new.
    pub log: Option<Log>,
    /// Room for those that were there and those behind them.
    pub log_room: Vec<NamedOp>,
    /// How many session operations will wait for earlier ones.
    pub parked: usize,
    /// What will be acknowledged, where some of it is new.
    pub acks: Option<Acks>,
    /// As far as the sequence numbers reach that are acknowledged anew.
    pub span: Span,
    /// How many acknowledgements will stand above a number that is not acknowledged.
    pub exceptions: u64,
    /// The messages that are new.
    pub news: Vec<Put>,
    /// Room for those that wait and those that are new.
    pub room: Vec<Put>,
    /// No messages, for the place of those that wait while they are moved.
    pub none: Puts,
    /// How many messages will wait.
    pub pending: usize,
}

/// Puts the change in the place of an entry. What waited there is moved, and no memory is taken.
pub fn put_into(place: &mut Entry, change: Change)
    requires change { IsChange change }
    requires fit { (c : List ℕ) × IsFit c (base_of place.old) change }
    requires rising { Rising place.old.seen.pending }
    ensures { place.new ≡ entry_applied place.old change }
{
    let Change {
        log,
        log_room,
        parked,
        acks,
        span,
        exceptions,
        news,
        room,
        none,
        ..
    } = change;
    put_log(place, log, log_room);
    put_acks(&mut place.acks, acks);
    let waiting = mem::replace(&mut place.seen.pending, none);
    let left = wait_on(room, waiting, news, span, &place.acks);
    place.seen.pending = left;
    place.parked = parked;
    place.exceptions = exceptions;
}

/// Puts a log in its place. Operations that come after those that are there are moved there.
fn put_log(place: &mut Entry, log: Option<Log>, room: Vec<NamedOp>)
    requires empty { room.items ≡ [] }
    requires fit { IsLogFit place.old.known log (vec_capacity room) }
    ensures { place.new ≡ with_log place.old log }
{
    if let Some(log) = log {
        let Log {
            stamp,
            prefix,
            session,
            anew,
            more,
        } = log;
        put_known(&mut place.known, anew, more, room);
        place.seen.stamp = stamp;
        place.seen.prefix = prefix;
        place.seen.session = session;
    }
}

/// Puts operations after those that are there, or in their place.
fn put_known(known: &mut Known, anew: bool, more: Known, room: Vec<NamedOp>)
    requires empty { room.items ≡ [] }
    requires room { anew ≡ false → length known.old + length more ≤ vec_capacity room }
    requires ordered { T (is_sorted operation_cmp (cond anew [] known.old ++ more)) }
    ensures { known.new ≡ cond anew [] known.old ++ more }
{
    if anew {
        *known = more;
    } else {
        known.move_behind(more, room);
    }
}

/// Puts acknowledgements in their place.
fn put_acks(place: &mut Acks, acks: Option<Acks>)
    ensures { place.new ≡ origins_after place.old acks }
{
    if let Some(acks) = acks {
        *place = acks;
    }
}
