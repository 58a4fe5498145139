//! Whether a tick has nothing to do (MQTT-SN 1.2 sections 6.1, 6.3, 6.11 and 6.13).

ghost use Rattle.std.specs.Prelude.{◌≡◌, ◌||◌, false, is_some, IsTrue};
ghost use Rattle.std.specs.List.{list_any};
ghost use Rattle.rep_model.specs.Views as views;
ghost use Rattle.sn_local.specs.Seen.{seen_of};
ghost use Rattle.sn_tick.specs.Due as due;
ghost use Rattle.sn_tick.specs.Ticking as ticking;
ghost use Rattle.sn_tick.specs.Rest as spec;

use super::due::due_view;
use super::ticking::{is_old, may_advertise, needs_timer};
use rep_model::{ClientView, Replica};
use rep_ops::ClientId;
use sn_local::{Config, Dialogs, WillDialog};

/// Whether one of these dialogs is a minute old.
fn any_old(now: u64, dialogs: &[WillDialog]) -> bool
    ensures { result ≡ list_any (λ dialog. ticking.is_old now dialog) dialogs.now }
{
    dialogs.iter().any(|dialog| is_old(now, dialog))
}

/// Whether a client of this view needs a timer, or something is due with it.
fn asks(gateway: u8, dialogs: &Dialogs, now: u64, client: &ClientId, view: &ClientView) -> bool
    ensures { result ≡ (ticking.needs_timer gateway dialogs.now.local.timers client.now view.now
        || is_some (due.due_view gateway dialogs.now.local now client.now view.now)) }
{
    needs_timer(gateway, dialogs, client, view)
        || due_view(gateway, dialogs, now, client, view).is_some()
}

/// Whether it was found that no client asks for anything.
fn none_asks<R: Replica>(gateway: u8, replica: &R, dialogs: &Dialogs, now: u64) -> bool
    ensures { IsTrue result → list_any
        (spec.asks gateway (seen_of (R.kept replica.now)) dialogs.now.local now)
        (views.clients (R.kept replica.now)) ≡ false }
{
    let mut place = 0;
    while let Some((behind, client, view)) = replica.client_at(place) {
        if asks(gateway, dialogs, now, client, view) {
            return false;
        }
        place = behind;
    }
    true
}

/// Whether it was found that a tick of this moment has nothing to do. It has nothing to do at any
/// moment before it then.
pub fn is_idle<R: Replica>(config: &Config, replica: &R, dialogs: &Dialogs, now: u64) -> bool
    ensures { IsTrue result → IsTrue (spec.is_idle config.now.gateway config.now.advertise
        config.now.field
        (seen_of (R.kept replica.now)) dialogs.now.local now) }
{
    let field = config.field.as_slice();
    if may_advertise(config.advertise, field, now, dialogs.advertised()) {
        return false;
    }
    if any_old(now, dialogs.dialogs()) {
        return false;
    }
    none_asks(config.gateway, replica, dialogs, now)
}
