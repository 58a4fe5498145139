//! Whether an operation is well made.

ghost use Rattle.std.specs.Prelude.{◌≡◌};
ghost use Rattle.rep_op.specs.WellMade as spec;

use super::op::{Op, Put, Retained, Stamp};
use super::range::is_change;
use sn_session::{MAX_MESSAGE, SessionOp};

/// Whether epoch and gateway begin at 1.
fn is_stamp(stamp: Stamp) -> bool
    ensures { result ≡ spec.is_stamp stamp }
{
    stamp.epoch >= 1 && stamp.gateway >= 1
}

/// Whether counter 0 is a Take, and no other counter.
fn is_counted(counter: u8, change: &SessionOp) -> bool
    ensures { result ≡ spec.is_counted counter change.now }
{
    if change.is_take() {
        counter == 0
    } else {
        counter > 0
    }
}

/// Whether the values of a message are in range.
fn is_put(put: &Put) -> bool
    ensures { result ≡ spec.is_put put.now }
{
    put.origin >= 1 && put.seq >= 1 && put.qos.number() <= 2 && put.body.len() <= MAX_MESSAGE
}

/// Whether the values of what is retained are in range.
fn is_retained(kept: &Retained) -> bool
    ensures { result ≡ spec.is_retained kept.now }
{
    kept.clock >= 1 && kept.gateway >= 1 && kept.qos.number() <= 2 && kept.body.len() <= MAX_MESSAGE
}

/// Whether a delta may hold the operation.
pub fn is_well_made(op: &Op) -> bool
    ensures { result ≡ spec.is_well_made op.now }
{
    match op {
        Op::Session {
            stamp,
            counter,
            change,
            ..
        } => is_stamp(*stamp) && is_counted(*counter, change) && is_change(change),
        Op::Put { put, .. } => is_put(put),
        Op::Ack {
            origin,
            first,
            last,
            ..
        } => *origin >= 1 && *first >= 1 && *first <= *last,
        Op::Retain { retained, .. } => is_retained(retained),
    }
}
