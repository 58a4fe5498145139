//! What the records come to for each client and each topic, in words.

use crate::changes::{presence_word, registered, retains, subscribed, waiting, will_message};
use crate::page::Page;
use rep_model::{ClientView, MOST_CLIENTS, MOST_RETAINED, Replica};
use rep_ops::Stamp;
use rep_state::Folded;
use sn_session::{Outbound, Phase, Session, Will};
use sn_tables::QosLevel;

/// The lines of all clients.
pub(crate) fn clients(page: &mut Page, replica: &Folded) {
    let mut place = 0;
    for _ in 0..MOST_CLIENTS {
        let Some((behind, client, view)) = replica.client_at(place) else {
            return;
        };
        page.name("client ", client.bytes());
        owned(page, view);
        waits(page, view);
        place = behind;
    }
}

/// The lines of all topics of which something was retained.
pub(crate) fn retained(page: &mut Page, replica: &Folded) {
    let mut place = 0;
    for _ in 0..MOST_RETAINED {
        let Some((behind, topic, found)) = replica.topic_at(place) else {
            return;
        };
        retains(page, topic.bytes(), found);
        place = behind;
    }
}

/// Who owns a client, and the session.
fn owned(page: &mut Page, view: &ClientView) {
    match &view.stamp {
        None => page.text(" is owned by no gateway\n"),
        Some(stamp) => {
            owner(page, stamp, view.prefix);
            last_session(page, &view.session);
        }
    }
}

/// Which gateway owns a client, since when, and how many changes there are.
fn owner(page: &mut Page, stamp: &Stamp, prefix: u16) {
    page.value(" is owned by gateway ", stamp.gateway);
    page.value(" since epoch ", stamp.epoch);
    page.value(", changes ", prefix);
    page.text(": ");
}

/// The rest of the line of a session, if there is one, and the lines of its tables.
fn last_session(page: &mut Page, found: &Option<Session>) {
    match found {
        None => page.text("no session\n"),
        Some(seen) => session(page, seen),
    }
}

/// A line for each message that waits.
fn waits(page: &mut Page, view: &ClientView) {
    for put in view.pending.as_slice() {
        page.text("  ");
        waiting(page, put);
    }
}

/// The rest of the line of a session, and the lines of its tables.
pub(crate) fn session(page: &mut Page, seen: &Session) {
    standing(page, seen);
    topics(page, seen);
    subscriptions(page, seen);
    last_will(page, &seen.will);
    received(page, seen);
    last_exchange(page, &seen.outbound);
}

/// The rest of the line of a session.
fn standing(page: &mut Page, seen: &Session) {
    page.text(presence_word(seen.presence));
    page.text(if seen.clean { ", clean" } else { ", kept" });
    page.value(", ", seen.duration);
    page.value(" seconds, the next message id is ", seen.next_id);
    page.text("\n");
}

/// A line for each topic id.
fn topics(page: &mut Page, seen: &Session) {
    for entry in seen.topics.as_slice() {
        page.text("    ");
        registered(page, entry.id, entry.name.bytes(), entry.known);
    }
}

/// A line for each subscription.
fn subscriptions(page: &mut Page, seen: &Session) {
    for entry in seen.subscriptions.as_slice() {
        page.text("    ");
        subscribed(page, entry.filter.bytes(), entry.qos);
    }
}

/// The lines of a will, if there is one.
fn last_will(page: &mut Page, told: &Option<Will>) {
    if let Some(told) = told {
        page.text("    ");
        will(page, told.topic.bytes(), told.qos, told.retain);
        page.text("    ");
        will_message(page, told.message.as_slice());
    }
}

/// The rest of the line of a will.
pub(crate) fn will(page: &mut Page, topic: &[u8], qos: QosLevel, retain: bool) {
    page.name("a will on ", topic);
    page.value(" qos ", qos.number());
    page.text(if retain { ", retained\n" } else { "\n" });
}

/// A line for each message id that was received.
fn received(page: &mut Page, seen: &Session) {
    for id in seen.received.as_slice() {
        page.value("    message id ", *id);
        page.text(" was received\n");
    }
}

/// The line of an exchange, if one is not over.
fn last_exchange(page: &mut Page, open: &Option<Outbound>) {
    if let Some(outbound) = open {
        page.text("    ");
        exchange(page, outbound);
        page.text("\n");
    }
}

/// An exchange, without the end of its line.
pub(crate) fn exchange(page: &mut Page, outbound: &Outbound) {
    page.value("message ", outbound.seq);
    page.value(" of gateway ", outbound.origin);
    page.word(" is ", phase_word(outbound.phase));
    page.value(" under id ", outbound.msg_id);
}

/// How far an exchange is.
pub(crate) fn phase_word(phase: Phase) -> &'static str {
    match phase {
        Phase::Registering => "registering",
        Phase::Published => "published",
        Phase::Released => "released",
    }
}
