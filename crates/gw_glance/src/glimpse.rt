//! A client at a glance.

ghost use Rattle.std.specs.Prelude.{◌≡◌, IfOk};
ghost use Rattle.std.specs.Option.{option_copied};
ghost use Rattle.gw_glance.specs.Glimpses as spec;

use gw_report::{First, Glimpse, LocalGlimpse, SessionGlimpse};
use octets::NoMemory;
use rep_model::ClientView;
use rep_op::{ClientId, Put, Stamp};
use sn_local::{Addr, Dialogs, Timer, is_stamp_of};
use sn_session::{Outbound, Phase, Session};
use std::alloc::Global;

/// How far an exchange is, if one has begun.
fn phase_of(outbound: Option<Outbound>) -> Option<Phase>
    ensures { result ≡ spec.phase_of outbound }
{
    match outbound {
        None => None,
        Some(exchange) => Some(exchange.phase),
    }
}

/// A session at a glance.
fn session_glimpse(session: &Session) -> SessionGlimpse
    ensures { result ≡ spec.session_glimpse session.now }
{
    SessionGlimpse {
        presence: session.presence,
        clean: session.clean,
        duration: session.duration,
        topics: session.topics.len(),
        subscriptions: session.subscriptions.len(),
        received: session.received.len(),
        exchange: phase_of(session.outbound),
    }
}

/// A client's session at a glance, if it has one.
fn session_at_glance(session: &Option<Session>) -> Option<SessionGlimpse>
    ensures { result ≡ spec.session_at_glance session.now }
{
    match session {
        None => None,
        Some(session) => Some(session_glimpse(session)),
    }
}

/// The name of the first message that waits.
fn first_of(pending: &[Put]) -> Option<First>
    ensures { result ≡ spec.first_of pending.now }
{
    match pending.first() {
        None => None,
        Some(put) => Some(First {
            seq: put.seq,
            origin: put.origin,
        }),
    }
}

/// Where a client is reached, and since when nothing was heard of it, if both are known.
fn local_with(address: Option<Addr>, timer: Option<&Timer>) -> Option<LocalGlimpse>
    ensures { result ≡ spec.local_with address (option_copied timer.entry) }
{
    match address {
        None => None,
        Some(address) => match timer {
            None => None,
            Some(timer) => Some(LocalGlimpse {
                address,
                heard: timer.heard,
                tries: timer.tries,
            }),
        },
    }
}

/// What a gateway alone knows of a client of this stamp; nothing if another one owns it.
fn local_of(
    gateway: u8,
    dialogs: &Dialogs,
    client: &ClientId,
    stamp: Option<Stamp>,
) -> Option<LocalGlimpse>
    ensures { result ≡ spec.local_of gateway dialogs.now.local client.now stamp }
{
    if !is_stamp_of(gateway, stamp) {
        return None;
    }
    local_with(dialogs.address_of(client), dialogs.timer_of(client))
}

/// A client of this view at a glance, as the gateway of this number sees it.
pub fn glimpse_of(
    alloc: Global,
    gateway: u8,
    dialogs: &Dialogs,
    client: &ClientId,
    view: &ClientView,
) -> Result<Glimpse, NoMemory>
    ensures { IfOk result (λ glimpse. glimpse
        ≡ spec.glimpse_of gateway dialogs.now.local client.now view.now) }
{
    Ok(Glimpse {
        client: client.copied(alloc)?,
        stamp: view.stamp,
        prefix: view.prefix,
        session: session_at_glance(&view.session),
        waiting: view.pending.len(),
        first: first_of(view.pending.as_slice()),
        local: local_of(gateway, dialogs, client, view.stamp),
    })
}
