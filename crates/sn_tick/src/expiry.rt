//! Which messages expire: they need not wait any more, and the client is not in the middle of them.
//!
//! What is acknowledged after a message that stays is kept by itself, and a client has room for
//! 16,384 of these. So nothing expires while a message is far after one that stays.

ghost use Rattle.std.specs.Prelude.{◌≡◌, ◌-◌, ◌&&◌, nat_le, OnOk};
ghost use Rattle.std.specs.List.{list_any};
ghost use Rattle.rep_model.specs.Moments as moments;
ghost use Rattle.sn_local.specs.Bindings as bindings;
ghost use Rattle.sn_tick.specs.declared.expiry.TheConstants.{FAR as Far};
ghost use Rattle.sn_tick.specs.Expiry.{expiry_acked, expiries_acked};
ghost use Rattle.sn_tick.specs.inner.Greatest.{greatest_from};
ghost use Rattle.sn_tick.specs.Expiry as spec;

use octets::NoMemory;
use rep_model::{ClientView, Puts};
use rep_ops::{ClientId, Put};
use sn_exchange::{is_served, message_of, open_exchange};
use sn_local::{Addr, Dialogs};
use sn_plan::Draft;
use sn_session::Session;

/// From so many numbers on a message is far after another one of its origin. As many messages may
/// wait for a client ([`sn_plan::MAX_PENDING`]), so none is far if what is before it has left.
pub const FAR: u64 = 1_024;

/// Whether the moment of a message is there; without one it never is.
fn is_past(now: u64, put: &Put) -> bool
    ensures { result ≡ moments.is_past now put.now }
{
    0 < put.expires && put.expires <= now
}

/// Whether a message is the one of this name, if there is one.
fn is_under_way(name: Option<(u64, u8)>, put: &Put) -> bool
    ensures { result ≡ spec.is_under_way name put.now }
{
    match name {
        None => false,
        Some(name) => name.0 == put.seq && name.1 == put.origin,
    }
}

/// Whether a message has expired: its moment is there, and the client is not in the middle of it.
fn is_expired(now: u64, name: Option<(u64, u8)>, put: &Put) -> bool
    ensures { result ≡ spec.is_expired now name put.now }
{
    is_past(now, put) && !is_under_way(name, put)
}

/// The message of the open exchange of a client that is Active or Awake.
fn under_way_in(pending: &[Put], session: &Session) -> Option<(u64, u8)>
    ensures { result ≡ spec.under_way_in pending.now session.now }
{
    if !is_served(session.presence) {
        return None;
    }
    match open_exchange(session, &[], pending) {
        None => None,
        Some(exchange) => Some(message_of(exchange)),
    }
}

/// The message that a client is in the middle of: that of its open exchange, if it has an
/// address and is Active or Awake.
fn under_way(pending: &[Put], address: Option<Addr>, session: &Option<Session>) -> Option<(u64, u8)>
    ensures { result ≡ spec.under_way pending.now address session.now }
{
    match address {
        None => None,
        Some(_) => match session {
            None => None,
            Some(session) => under_way_in(pending, session),
        },
    }
}

/// Whether one of these messages has expired.
fn any_expired(now: u64, name: Option<(u64, u8)>, pending: &[Put]) -> bool
    ensures { result ≡ list_any (λ put. spec.is_expired now name put) pending.now }
{
    pending.iter().any(|put| is_expired(now, name, put))
}

/// Whether a message is far after an earlier one of its origin.
fn is_far_after(first: &Put, put: &Put) -> bool
    ensures { result ≡ spec.is_far_after first.now put.now }
{
    first.origin == put.origin && FAR <= put.seq.saturating_sub(first.seq)
}

/// Whether one of these messages is far after an earlier one.
fn any_far_after(first: &Put, pending: &[Put]) -> bool
    ensures { result ≡ list_any (λ put. spec.is_far_after first.now put) pending.now }
{
    pending.iter().any(|put| is_far_after(first, put))
}

/// Whether a message stays, and one of these is far after it.
fn is_left_behind(now: u64, name: Option<(u64, u8)>, pending: &[Put], first: &Put) -> bool
    ensures { result ≡ spec.is_left_behind now name pending.now first.now }
{
    !is_expired(now, name, first) && any_far_after(first, pending)
}

/// The greatest number of these messages.
fn greatest_number(pending: &[Put]) -> u64
    ensures { result ≡ greatest_from 0 pending.now }
{
    let mut greatest = 0;
    for put in pending {
        greatest = put.seq.max(greatest);
    }
    greatest
}

/// Whether a message stays that is far before this number, and one of these is far after it.
fn is_behind(now: u64, name: Option<(u64, u8)>, pending: &[Put], greatest: u64, first: &Put) -> bool
    ensures { result ≡ (nat_le Far (greatest - first.now.seq)
        && spec.is_left_behind now name pending.now first.now) }
{
    FAR <= greatest.saturating_sub(first.seq) && is_left_behind(now, name, pending, first)
}

/// Whether a message stays that is far before this number, and another one of these is far after
/// it. Only those that are so far before it are looked at twice.
fn any_behind(now: u64, name: Option<(u64, u8)>, pending: &[Put], greatest: u64) -> bool
    ensures { result ≡ list_any (λ first. nat_le Far (greatest - first.seq)
        && spec.is_left_behind now name pending.now first) pending.now }
{
    pending
        .iter()
        .any(|first| is_behind(now, name, pending, greatest, first))
}

/// Whether one of these messages is far after one that stays.
fn is_stretched(now: u64, name: Option<(u64, u8)>, pending: &[Put]) -> bool
    ensures { result ≡ spec.is_stretched now name pending.now }
{
    let greatest = greatest_number(pending);
    any_behind(now, name, pending, greatest)
}

/// Whether messages expire, if the client is in the middle of the one of this name.
fn any_expires(now: u64, name: Option<(u64, u8)>, pending: &[Put]) -> bool
    ensures { result ≡ spec.any_expires now name pending.now }
{
    any_expired(now, name, pending) && !is_stretched(now, name, pending)
}

/// Whether messages of a client of this session expire. They are looked at only if the moment of
/// one may be there.
pub(crate) fn has_expired(
    now: u64,
    pending: &Puts,
    address: Option<Addr>,
    session: &Option<Session>,
) -> bool
    ensures { result ≡ spec.has_expired now pending.now address session.now }
{
    let may = pending.may_be_past(now);
    if may {
        let puts = pending.as_slice();
        let name = under_way(puts, address, session);
        any_expires(now, name, puts)
    } else {
        false
    }
}

/// Whether the moment of one of these messages is there.
fn each_past(now: u64, pending: &[Put]) -> bool
    ensures { result ≡ list_any (λ put. moments.is_past now put) pending.now }
{
    pending.iter().any(|put| is_past(now, put))
}

/// Whether the moment of one of these messages is there. They are looked at only if it may be.
pub(crate) fn any_past(now: u64, pending: &Puts) -> bool
    ensures { result ≡ list_any (moments.is_past now) pending.now }
{
    let may = pending.may_be_past(now);
    if may {
        each_past(now, pending.as_slice())
    } else {
        false
    }
}

/// And then the acknowledgement of a message, if it has expired.
fn ack_expired(
    draft: &mut Draft,
    now: u64,
    name: Option<(u64, u8)>,
    put: &Put,
) -> Result<(), NoMemory>
    ensures { OnOk result (draft.new ≡ expiry_acked now name draft.old put.now) }
{
    if is_expired(now, name, put) {
        draft.ack(put.seq, put.origin)?;
    }
    Ok(())
}

/// And then the acknowledgements of those of these messages that have expired.
fn ack_all_expired(
    draft: &mut Draft,
    now: u64,
    name: Option<(u64, u8)>,
    pending: &[Put],
) -> Result<(), NoMemory>
    ensures { OnOk result (draft.new ≡ expiries_acked now name pending.now draft.old) }
{
    for put in pending {
        ack_expired(draft, now, name, put)?;
    }
    Ok(())
}

/// And then the acknowledgements of all messages of the client of this view that have expired.
pub(crate) fn expire_all(
    draft: &mut Draft,
    dialogs: &Dialogs,
    now: u64,
    client: &ClientId,
    view: &ClientView,
) -> Result<(), NoMemory>
    ensures { OnOk result (draft.new ≡ expiries_acked now (spec.under_way view.now.pending
        (bindings.address_of client.now dialogs.now.local.bindings) view.now.session)
        view.now.pending draft.old) }
{
    let pending = view.pending.as_slice();
    let address = dialogs.address_of(client);
    let name = under_way(pending, address, &view.session);
    ack_all_expired(draft, now, name, pending)
}
