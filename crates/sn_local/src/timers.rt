//! The list of timers and its changes. It ascends by client: a tick asks for the timer of each
//! client, and finds it by binary search.

ghost use Rattle.std.specs.Prelude.{◌≡◌, ◌+◌, ◌≤◌, vec_len};
ghost use Rattle.std.specs.Option.{option_copied};
ghost use Rattle.std.specs.Vec.{vec_capacity};
ghost use Rattle.sn_tables.specs.inner.Tables.{IsPlace};
ghost use Rattle.rep_op.specs.Orders.{client_cmp};
ghost use Rattle.sn_local.specs.Timers.{AreTimers, timed, heard, sent_anew, sent_again, tried_again, owned_timers};
ghost use Rattle.sn_local.specs.Timers as spec;
ghost use Rattle.sn_local.specs.Seen.{seen_of};

use super::bindings::is_owned;
use super::local::Timer;
use rep_model::Replica;
use rep_model::rep_ops::ClientId;

/// Where the timer of a client is, or where it would go. The time is logarithmic.
fn place(timers: &[Timer], client: &ClientId) -> Result<usize, usize>
    requires { AreTimers timers.now }
    ensures { IsPlace (λ timer. client_cmp timer.client client.now) timers.now result }
{
    timers.binary_search_by(|timer| timer.client.cmp(client))
}

/// The timer of its client is this one. There is room for one more.
pub fn set_timer(timers: &mut Vec<Timer>, timer: Timer)
    requires room { vec_len timers.old + 1 ≤ vec_capacity timers.old }
    requires order { AreTimers timers.old.items }
    ensures items { timers.new.items ≡ timed timer timers.old.items }
    ensures order { AreTimers timers.new.items }
    ensures capacity { vec_capacity timers.old ≤ vec_capacity timers.new }
    ensures len { vec_len timers.new ≤ vec_len timers.old + 1 }
{
    match place(timers.as_slice(), &timer.client) {
        Ok(at) => timers[at] = timer,
        Err(at) => timers.insert(at, timer).unwrap(),
    }
}

/// The timer of a client. The time is logarithmic.
pub fn timer_of<'a>(timers: &'a [Timer], client: &ClientId) -> Option<&'a Timer>
    requires { AreTimers timers.now }
    ensures { option_copied result ≡ spec.timer_of client.now timers.now }
{
    match place(timers, client) {
        Ok(at) => Some(&timers[at]),
        Err(_) => None,
    }
}

/// The timer of a client that is heard of at this moment.
fn heard_at(client: ClientId, moment: u64, before: Option<&Timer>) -> Timer
    ensures { result ≡ spec.heard_at client moment (option_copied before.entry) }
{
    match before {
        None => Timer {
            client,
            heard: moment,
            sent: moment,
            tries: 0,
        },
        Some(timer) => Timer {
            client,
            heard: moment,
            sent: timer.sent,
            tries: timer.tries,
        },
    }
}

/// The client was heard of at this moment. There is room for one more timer.
pub fn hear(timers: &mut Vec<Timer>, client: ClientId, moment: u64)
    requires room { vec_len timers.old + 1 ≤ vec_capacity timers.old }
    requires order { AreTimers timers.old.items }
    ensures items { timers.new.items ≡ heard client moment timers.old.items }
    ensures order { AreTimers timers.new.items }
    ensures capacity { vec_capacity timers.old ≤ vec_capacity timers.new }
    ensures len { vec_len timers.new ≤ vec_len timers.old + 1 }
{
    let before = timer_of(timers.as_slice(), &client);
    let timer = heard_at(client, moment, before);
    set_timer(timers, timer);
}

/// The timer of a client whose frame is sent anew at this moment.
fn sent_at(client: ClientId, moment: u64, before: Option<&Timer>) -> Timer
    ensures { result ≡ spec.sent_at client moment (option_copied before.entry) }
{
    match before {
        None => Timer {
            client,
            heard: moment,
            sent: moment,
            tries: 0,
        },
        Some(timer) => Timer {
            client,
            heard: timer.heard,
            sent: moment,
            tries: 0,
        },
    }
}

/// The first frame of a new exchange was sent to the client at this moment. There is room for one
/// more timer.
pub fn send_anew(timers: &mut Vec<Timer>, client: ClientId, moment: u64)
    requires room { vec_len timers.old + 1 ≤ vec_capacity timers.old }
    requires order { AreTimers timers.old.items }
    ensures items { timers.new.items ≡ sent_anew client moment timers.old.items }
    ensures order { AreTimers timers.new.items }
    ensures capacity { vec_capacity timers.old ≤ vec_capacity timers.new }
    ensures len { vec_len timers.new ≤ vec_len timers.old + 1 }
{
    let before = timer_of(timers.as_slice(), &client);
    let timer = sent_at(client, moment, before);
    set_timer(timers, timer);
}

/// The timer of a client whose frame is sent again at this moment.
fn resent_at(client: ClientId, moment: u64, before: Option<&Timer>) -> Timer
    ensures { result ≡ spec.resent_at client moment (option_copied before.entry) }
{
    match before {
        None => Timer {
            client,
            heard: moment,
            sent: moment,
            tries: 0,
        },
        Some(timer) => Timer {
            client,
            heard: timer.heard,
            sent: moment,
            tries: timer.tries,
        },
    }
}

/// A frame of the open exchange was sent to the client again at this moment. There is room for one
/// more timer.
pub fn send_again(timers: &mut Vec<Timer>, client: ClientId, moment: u64)
    requires room { vec_len timers.old + 1 ≤ vec_capacity timers.old }
    requires order { AreTimers timers.old.items }
    ensures items { timers.new.items ≡ sent_again client moment timers.old.items }
    ensures order { AreTimers timers.new.items }
    ensures capacity { vec_capacity timers.old ≤ vec_capacity timers.new }
    ensures len { vec_len timers.new ≤ vec_len timers.old + 1 }
{
    let before = timer_of(timers.as_slice(), &client);
    let timer = resent_at(client, moment, before);
    set_timer(timers, timer);
}

/// One try more; a timer counts to 255.
fn one_try_more(tries: u8) -> u8
    ensures { result ≡ spec.one_try_more tries }
{
    if tries == 255 { 255 } else { tries + 1 }
}

/// The timer of a client with which there was one more try.
fn retried_at(client: ClientId, moment: u64, before: Option<&Timer>) -> Timer
    ensures { result ≡ spec.retried_at client moment (option_copied before.entry) }
{
    match before {
        None => Timer {
            client,
            heard: moment,
            sent: moment,
            tries: 0,
        },
        Some(timer) => Timer {
            client,
            heard: timer.heard,
            sent: timer.sent,
            tries: one_try_more(timer.tries),
        },
    }
}

/// There was one more try at this moment. There is room for one more timer.
pub fn try_again(timers: &mut Vec<Timer>, client: ClientId, moment: u64)
    requires room { vec_len timers.old + 1 ≤ vec_capacity timers.old }
    requires order { AreTimers timers.old.items }
    ensures items { timers.new.items ≡ tried_again client moment timers.old.items }
    ensures order { AreTimers timers.new.items }
    ensures capacity { vec_capacity timers.old ≤ vec_capacity timers.new }
    ensures len { vec_len timers.new ≤ vec_len timers.old + 1 }
{
    let before = timer_of(timers.as_slice(), &client);
    let timer = retried_at(client, moment, before);
    set_timer(timers, timer);
}

/// Whether the gateway owns the client of a timer.
fn times_owned<R: Replica>(gateway: u8, replica: &R, timer: &Timer) -> bool
    ensures { result ≡ spec.times_owned gateway (seen_of (R.kept replica.now)) timer.now }
{
    is_owned(gateway, replica, &timer.client)
}

/// Drops the timers of clients that the gateway does not own.
pub fn keep_timers<R: Replica>(timers: &mut Vec<Timer>, gateway: u8, replica: &R)
    requires { AreTimers timers.old.items }
    ensures items { timers.new.items ≡ owned_timers gateway (seen_of (R.kept replica.now))
        timers.old.items }
    ensures order { AreTimers timers.new.items }
{
    timers.retain(|timer| times_owned(gateway, replica, timer));
}
