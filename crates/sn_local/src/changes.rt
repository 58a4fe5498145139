//! The changes of the local state, carried out.

ghost use Rattle.std.specs.Prelude.{◌≡◌, ◌+◌, ◌≤◌, length, vec_len};
ghost use Rattle.std.specs.Vec.{vec_capacity};
ghost use Rattle.sn_local.specs.Bindings.{AreBindings, binding_change, bindings_after};
ghost use Rattle.sn_local.specs.WillDialogs.{dialog_change, dialogs_after};
ghost use Rattle.sn_local.specs.Timers.{AreTimers, timer_change, timers_after};
ghost use Rattle.sn_local.specs.Advertising.{advertised_change, advertised_after};

use super::bindings::{bind, unbind};
use super::local::{Binding, LocalChange, Timer, WillDialog};
use super::timers::{hear, send_again, send_anew, set_timer, try_again};
use super::will_dialogs::{ask, end_dialog};

/// Carries out one change. There is room for one more entry in each list.
fn commit_one(
    bindings: &mut Vec<Binding>,
    dialogs: &mut Vec<WillDialog>,
    timers: &mut Vec<Timer>,
    advertised: &mut Option<u64>,
    change: LocalChange,
)
    requires bindings_ascend { AreBindings bindings.old.items }
    requires bindings { vec_len bindings.old + 1 ≤ vec_capacity bindings.old }
    requires dialogs { vec_len dialogs.old + 1 ≤ vec_capacity dialogs.old }
    requires timers { vec_len timers.old + 1 ≤ vec_capacity timers.old }
    requires timers_order { AreTimers timers.old.items }
    ensures bindings_ascend { AreBindings bindings.new.items }
    ensures bindings { bindings.new.items ≡ binding_change bindings.old.items change }
    ensures dialogs { dialogs.new.items ≡ dialog_change dialogs.old.items change }
    ensures timers { timers.new.items ≡ timer_change timers.old.items change }
    ensures timers_order { AreTimers timers.new.items }
    ensures advertised { advertised.new ≡ advertised_change advertised.old change }
    ensures bindings_capacity { vec_capacity bindings.old ≤ vec_capacity bindings.new }
    ensures dialogs_capacity { vec_capacity dialogs.old ≤ vec_capacity dialogs.new }
    ensures timers_capacity { vec_capacity timers.old ≤ vec_capacity timers.new }
    ensures bindings_len { vec_len bindings.new ≤ vec_len bindings.old + 1 }
    ensures dialogs_len { vec_len dialogs.new ≤ vec_len dialogs.old + 1 }
    ensures timers_len { vec_len timers.new ≤ vec_len timers.old + 1 }
{
    match change {
        LocalChange::Bind { address, client } => bind(bindings, address, client),
        LocalChange::Unbind { client } => unbind(bindings, &client),
        LocalChange::Ask { dialog } => ask(dialogs, dialog),
        LocalChange::EndDialog { address } => end_dialog(dialogs, address),
        LocalChange::Advertised { moment } => *advertised = Some(moment),
        timed => commit_timed(timers, timed),
    }
}

/// Carries out one change of the timers; others change none. There is room for one more timer.
fn commit_timed(timers: &mut Vec<Timer>, change: LocalChange)
    requires room { vec_len timers.old + 1 ≤ vec_capacity timers.old }
    requires order { AreTimers timers.old.items }
    ensures timers { timers.new.items ≡ timer_change timers.old.items change }
    ensures order { AreTimers timers.new.items }
    ensures capacity { vec_capacity timers.old ≤ vec_capacity timers.new }
    ensures len { vec_len timers.new ≤ vec_len timers.old + 1 }
{
    match change {
        LocalChange::Time { timer } => set_timer(timers, timer),
        LocalChange::Heard { client, moment } => hear(timers, client, moment),
        LocalChange::Sent { client, moment } => send_anew(timers, client, moment),
        LocalChange::Resent { client, moment } => send_again(timers, client, moment),
        LocalChange::Retried { client, moment } => try_again(timers, client, moment),
        other => drop(other),
    }
}

/// Carries out the changes, one after the other. There is room for as many more entries in each
/// list.
pub fn commit_all(
    bindings: &mut Vec<Binding>,
    dialogs: &mut Vec<WillDialog>,
    timers: &mut Vec<Timer>,
    advertised: &mut Option<u64>,
    changes: Vec<LocalChange>,
)
    requires bindings_ascend { AreBindings bindings.old.items }
    requires bindings { vec_len bindings.old + length changes.items ≤ vec_capacity bindings.old }
    requires dialogs { vec_len dialogs.old + length changes.items ≤ vec_capacity dialogs.old }
    requires timers { vec_len timers.old + length changes.items ≤ vec_capacity timers.old }
    requires timers_order { AreTimers timers.old.items }
    ensures bindings_ascend { AreBindings bindings.new.items }
    ensures bindings { bindings.new.items ≡ bindings_after bindings.old.items changes.items }
    ensures dialogs { dialogs.new.items ≡ dialogs_after dialogs.old.items changes.items }
    ensures timers { timers.new.items ≡ timers_after timers.old.items changes.items }
    ensures timers_order { AreTimers timers.new.items }
    ensures advertised { advertised.new ≡ advertised_after advertised.old changes.items }
{
    for change in changes {
        commit_one(bindings, dialogs, timers, advertised, change);
    }
}
