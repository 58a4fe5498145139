//! The last numbers of a client.

ghost use Rattle.std.specs.Prelude.{◌≡◌, ℕ, List, max};
ghost use Rattle.rep_model.specs.Fresh.{greatest_epoch, seq_of, largest};
ghost use Rattle.rep_shared.specs.Rows.{own};
ghost use Rattle.rep_entry.specs.Entries.{entry_row};
ghost use Rattle.rep_log.specs.Mail.{Rising};
ghost use Rattle.rep_entry.specs.inner.Numbers.{operation_epoch, seq_from};
ghost use Rattle.rep_state.specs.Tables.{by_client, rows_of, AreKept};
ghost use Rattle.std.specs.Map.{keys_of};

use super::table::{Table, entry_of};
use rep_entry::Entry;
use rep_log::NamedOp;
use rep_ops::{ClientId, Put};

/// The greatest epoch of the client, or 0.
pub(crate) fn last_epoch(table: &Table, client: &ClientId) -> u64
    ensures { result
        ≡ greatest_epoch client.now (own client.now (rows_of (by_client table.now.entries))) }
{
    match entry_of(table, client.bytes()) {
        Some(entry) => greatest_epoch(entry.known.as_slice()),
        None => 0,
    }
}

/// The greatest sequence number of the client and the gateway, or 0.
pub(crate) fn last_seq(table: &Table, client: &ClientId, gateway: u8) -> u64
    requires { AreKept (by_client table.now.entries) }
    ensures { result
        ≡ largest (seq_of client.now gateway)
        (own client.now (rows_of (by_client table.now.entries))) }
{
    match entry_of(table, client.bytes()) {
        Some(entry) => greatest_seq(entry, gateway),
        None => 0,
    }
}

/// The greatest epoch of the operations, or 0.
fn greatest_epoch(ops: &[NamedOp]) -> u64
    ensures { result ≡ largest operation_epoch (keys_of ops.now) }
{
    let mut most = 0;
    let mut i = ops.len();
    while i > 0 {
        i -= 1;
        most = larger(ops[i].0.0.epoch, most);
    }
    most
}

/// The greatest sequence number of the gateway that the entry names, or 0.
fn greatest_seq(entry: &Entry, gateway: u8) -> u64
    requires { Rising entry.now.seen.pending }
    ensures { (c : List ℕ) → result ≡ largest (seq_of c gateway) (entry_row c entry.now) }
{
    let sent = greatest_put(entry.seen.pending.as_slice(), gateway);
    let taken = greatest_end(entry.acks.numbers(gateway));
    larger(sent, taken)
}

/// The larger of the two.
fn larger(a: u64, b: u64) -> u64
    ensures { result ≡ max a b }
{
    a.max(b)
}

/// The greatest sequence number of the gateway's messages, which stand in order: that of its last
/// one; or 0.
fn greatest_put(puts: &[Put], gateway: u8) -> u64
    requires { Rising puts.now }
    ensures { result ≡ largest (seq_from gateway) puts.now }
{
    let mut i = puts.len();
    while i > 0 {
        i -= 1;
        if puts[i].origin == gateway {
            return puts[i].seq;
        }
    }
    0
}

/// The greatest end of the ranges, or 0.
fn greatest_end(ranges: &[(u64, u64)]) -> u64
    ensures { result ≡ largest (λ range. range.1) ranges.now }
{
    let mut most = 0;
    let mut i = ranges.len();
    while i > 0 {
        i -= 1;
        most = ranges[i].1.max(most);
    }
    most
}
