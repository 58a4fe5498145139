//! Lines about clients at a glance.

use crate::calls::{glimpses, messages_known};
use crate::page::Page;
use crate::stop::Stop;
use crate::words::Words;
use gw_node::Node;
use gw_report::{Glimpse, LocalGlimpse, SessionGlimpse, presence_word};
use jr_journal::MemoryDisk;
use rep_model::Replica;

/// `glance MOST OCTETS ..`: the clients above these octets, at most so many.
pub(crate) fn glance<R: Replica>(page: &mut Page, node: &Node<R, MemoryDisk>, words: &mut Words) {
    let most = words.count();
    let above = words.octets();
    if words.end(page) {
        show_glimpses(page, node, above.as_slice(), most);
    }
    drop(above);
}

/// The clients above these octets, at most so many.
fn show_glimpses<R: Replica>(
    page: &mut Page,
    node: &Node<R, MemoryDisk>,
    above: &[u8],
    most: usize,
) {
    let found = glimpses(page.alloc(), node, above, most);
    match &found {
        Ok(found) => print_glimpses(page, found.as_slice()),
        Err(_) => page.stop(Stop::Memory),
    }
    drop(found);
}

/// `known CLIENT GATEWAY`: how many messages of a gateway are known for a client.
pub(crate) fn known<R: Replica>(page: &mut Page, node: &Node<R, MemoryDisk>, words: &mut Words) {
    let client = words.client();
    let origin = words.gateway();
    if words.end(page) {
        if let Some(client) = &client {
            page.number("messages ", messages_known(node, client, origin));
            page.end();
        }
    }
    drop(client);
}

/// Clients at a glance.
fn print_glimpses(page: &mut Page, glimpses: &[Glimpse]) {
    for glimpse in glimpses {
        print_glimpse(page, glimpse);
        print_inside(page, glimpse);
        page.end();
    }
}

/// What the operations of a client say.
fn print_glimpse(page: &mut Page, glimpse: &Glimpse) {
    page.octets("client ", glimpse.client.bytes());
    if let Some(stamp) = glimpse.stamp {
        page.number(", stamp ", u64::from(stamp.epoch));
        page.number(".", u64::from(stamp.gateway));
    }
    page.number(", changes ", u64::from(glimpse.prefix));
    page.length(", waiting ", glimpse.waiting);
    if let Some(first) = glimpse.first {
        page.number(", first ", first.seq);
        page.number(".", u64::from(first.origin));
    }
}

/// The session of a client, and what the gateway alone knows.
fn print_inside(page: &mut Page, glimpse: &Glimpse) {
    if let Some(session) = &glimpse.session {
        print_session(page, session);
    }
    if let Some(local) = &glimpse.local {
        print_local(page, local);
    }
}

/// A session at a glance.
fn print_session(page: &mut Page, session: &SessionGlimpse) {
    page.text(", ");
    page.text(presence_word(session.presence));
    page.number(" ", u64::from(session.duration));
    page.length(", topics ", session.topics);
    page.length(", filters ", session.subscriptions);
    page.length(", received ", session.received);
}

/// What the gateway alone knows of a client.
fn print_local(page: &mut Page, local: &LocalGlimpse) {
    page.number(", at 0:", u64::from(local.address.port));
    page.number(", heard ", local.heard);
    page.number(", tries ", u64::from(local.tries));
}
