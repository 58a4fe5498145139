//! Whether each address and each timer is of a client that the gateway owns, so that after a delta
//! nobody need be looked for.
//!
//! Only a Take changes who owns a client. So if all was tidy before a delta, only its Takes are
//! asked: does one of them take away a client that has an address or a timer here? If it does, all
//! are asked. A step of the gateway's own asks of each change that it notes whether the gateway
//! owns that client. That this holds in every run is a law (`bound_up` of plan_laws); the node asks
//! instead, so that it need not be built on the law.

ghost use Rattle.std.specs.Prelude.{◌≡◌, true, length};
ghost use Rattle.std.specs.List.{list_all};
ghost use Rattle.sn_local.specs.Seen.{seen_of};
ghost use Rattle.sn_local.specs.Locals.{after_all, owned, IsRoomFor};
ghost use Rattle.gw_own.specs.Tidy.{are_owned, WereOwned};
ghost use Rattle.gw_own.specs.inner.Tidy as spec;

use octets::Sequence;
use rep_model::Replica;
use rep_ops::{ClientId, Op};
use sn_local::{Dialogs, LocalChange, is_owned};

/// Whether the client has neither an address nor a timer.
fn is_stranger(dialogs: &Dialogs, client: &ClientId) -> bool
    ensures { result ≡ spec.is_stranger client.now dialogs.now.local }
{
    dialogs.address_of(client).is_none() && dialogs.timer_of(client).is_none()
}

/// Whether the gateway owns the client, or the client has neither an address nor a timer.
fn stays_bound<R: Replica>(gateway: u8, replica: &R, dialogs: &Dialogs, client: &ClientId) -> bool
    ensures { result ≡ spec.stays_bound gateway (seen_of (R.kept replica.now)) dialogs.now.local
        client.now }
{
    is_owned(gateway, replica, client) || is_stranger(dialogs, client)
}

/// Whether the operation leaves the gateway all clients of which it knows an address or a timer.
fn leaves_all<R: Replica>(gateway: u8, replica: &R, dialogs: &Dialogs, op: &Op) -> bool
    ensures { result
        ≡ spec.leaves_all gateway (seen_of (R.kept replica.now)) dialogs.now.local op.now }
{
    match op {
        Op::Session {
            client,
            counter,
            ..
        } => *counter != 0 || stays_bound(gateway, replica, dialogs, client),
        Op::Put { .. } | Op::Ack { .. } | Op::Retain { .. } => true,
    }
}

/// Whether the change notes nobody whom the gateway does not own.
fn notes_owned<R: Replica>(gateway: u8, replica: &R, change: &LocalChange) -> bool
    ensures { result ≡ spec.notes_owned gateway (seen_of (R.kept replica.now)) change.now }
{
    match change {
        LocalChange::Bind { client, .. } => is_owned(gateway, replica, client),
        LocalChange::Unbind { .. } => true,
        LocalChange::Time { timer } => is_owned(gateway, replica, &timer.client),
        LocalChange::Heard { client, .. } => is_owned(gateway, replica, client),
        LocalChange::Sent { client, .. } => is_owned(gateway, replica, client),
        LocalChange::Resent { client, .. } => is_owned(gateway, replica, client),
        LocalChange::Retried { client, .. } => is_owned(gateway, replica, client),
        LocalChange::Ask { .. } => true,
        LocalChange::EndDialog { .. } => true,
        LocalChange::Advertised { .. } => true,
    }
}

/// Whether these operations, which the replica has taken, leave the gateway all clients of which it
/// knows an address or a timer.
fn keeps_all_bound<R: Replica>(gateway: u8, replica: &R, dialogs: &Dialogs, ops: &[Op]) -> bool
    ensures { result ≡ list_all
        (spec.leaves_all gateway (seen_of (R.kept replica.now)) dialogs.now.local) ops.now }
{
    ops.iter()
        .all(|op| leaves_all(gateway, replica, dialogs, op))
}

/// Whether these changes note nobody whom the gateway does not own.
fn note_owned<R: Replica>(gateway: u8, replica: &R, changes: &[LocalChange]) -> bool
    ensures { result
        ≡ list_all (spec.notes_owned gateway (seen_of (R.kept replica.now))) changes.now }
{
    changes
        .iter()
        .all(|change| notes_owned(gateway, replica, change))
}

/// Carries out changes for which there is room, and tells whether each address and each timer is of
/// a client that the gateway owns, where that was known before.
pub fn note_changes<R: Replica>(
    gateway: u8,
    replica: &R,
    dialogs: &mut Dialogs,
    known: bool,
    changes: Sequence<LocalChange>,
) -> bool
    requires room { IsRoomFor (length changes) dialogs.old.room }
    requires known { known ≡ true → are_owned gateway (seen_of (R.kept replica.now))
        dialogs.old.local ≡ true }
    ensures done { dialogs.new.local ≡ after_all dialogs.old.local changes }
    ensures owned { result ≡ true → are_owned gateway (seen_of (R.kept replica.now))
        dialogs.new.local ≡ true }
{
    if known && note_owned(gateway, replica, changes.as_slice()) {
        dialogs.commit(changes);
        return true;
    }
    dialogs.commit(changes);
    false
}

/// The same, where it was known of what the replica kept before it took these operations.
pub fn apply_local_after_delta<R: Replica>(
    gateway: u8,
    replica: &R,
    dialogs: &mut Dialogs,
    known: bool,
    ops: &[Op],
    changes: Sequence<LocalChange>,
) -> bool
    requires room { IsRoomFor (length changes) dialogs.old.room }
    requires known { known ≡ true → WereOwned gateway (R.kept replica.now) ops.now
        dialogs.old.local }
    ensures done { dialogs.new.local ≡ after_all dialogs.old.local changes }
    ensures owned { result ≡ true → are_owned gateway (seen_of (R.kept replica.now))
        dialogs.new.local ≡ true }
{
    if known && keeps_all_bound(gateway, replica, dialogs, ops) {
        return note_changes(gateway, replica, dialogs, true, changes);
    }
    note_changes(gateway, replica, dialogs, false, changes)
}

/// Drops the bindings and the timers of clients that the gateway does not own, where it has taken
/// these operations. Where it was known that before them there were none, few of them are looked
/// for.
pub fn keep_owned<R: Replica>(
    gateway: u8,
    replica: &R,
    dialogs: &mut Dialogs,
    known: bool,
    ops: &[Op],
)
    requires { known ≡ true → WereOwned gateway (R.kept replica.now) ops.now dialogs.old.local }
    ensures dropped { dialogs.new.local
        ≡ owned gateway (seen_of (R.kept replica.now)) dialogs.old.local }
    ensures owned { are_owned gateway (seen_of (R.kept replica.now)) dialogs.new.local ≡ true }
{
    if known && keeps_all_bound(gateway, replica, dialogs, ops) {
        return;
    }
    dialogs.keep_owned(gateway, replica);
}
