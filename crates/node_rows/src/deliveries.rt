//! Lines that draft what a client is sent.

use crate::calls::{no_predefined, read_frame, view};
use crate::page::Page;
use crate::printing::{print_draft, print_octets};
use crate::stop::Stop;
use crate::words::Words;
use gw_node::Node;
use jr_journal::MemoryDisk;
use octets::NoMemory;
use rep_model::{ClientView, Replica};
use rep_ops::Put;
use sn_deliver::acknowledge;
use sn_exchange::{Peer, Visit, then_deliver, then_resend};
use sn_frame::{Flags, Frame, FrameFault};
use sn_local::Addr;
use sn_plan::Draft;
use sn_publish::{Meant, pubrel, topic_meant};
use sn_session::Session;
use std::alloc::Global;

/// Plays a line about a client of the gateway.
pub(crate) fn play<R: Replica>(
    page: &mut Page,
    node: &Node<R, MemoryDisk>,
    first: &str,
    words: &mut Words,
) {
    let peer = peer(words);
    let octets = words.octets();
    if words.end(page) {
        if let Some(peer) = &peer {
            play_for(page, node, peer, first, &octets);
        }
    }
    drop(octets);
    drop(peer);
}

/// The client, at port 7 of host 0 and moment 3.
fn peer(words: &mut Words) -> Option<Peer> {
    let client = words.client()?;
    Some(Peer {
        address: Addr { host: 0, port: 7 },
        client,
        moment: 3,
    })
}

/// Plays a line about this client, of which the gateway has a view.
fn play_for<R: Replica>(
    page: &mut Page,
    node: &Node<R, MemoryDisk>,
    peer: &Peer,
    first: &str,
    octets: &[u8],
) {
    let answer = view(page.alloc(), node, &peer.client);
    match &answer {
        Ok(out) => play_view(page, peer, &out.view, first, octets),
        Err(_) => page.stop(Stop::Memory),
    }
    drop(answer);
}

/// Plays a line about a client of this view, which is to have a session.
fn play_view(page: &mut Page, peer: &Peer, view: &Option<ClientView>, first: &str, octets: &[u8]) {
    match view {
        Some(view) => play_session(page, peer, view, first, octets),
        None => page.stop(Stop::Line),
    }
}

/// Plays a line about a client of this session.
fn play_session(page: &mut Page, peer: &Peer, view: &ClientView, first: &str, octets: &[u8]) {
    match &view.session {
        Some(session) => play_pending(page, peer, session, view.pending.as_slice(), first, octets),
        None => page.stop(Stop::Line),
    }
}

/// Plays a line about a client of this session, for which these messages wait.
fn play_pending(
    page: &mut Page,
    peer: &Peer,
    session: &Session,
    pending: &[Put],
    first: &str,
    octets: &[u8],
) {
    let predefined = no_predefined(page.alloc());
    match &predefined {
        Some(predefined) => {
            let visit = Visit {
                predefined,
                peer,
                session,
                pending,
            };
            play_visit(page, &visit, first, octets);
        }
        None => page.stop(Stop::Memory),
    }
    drop(predefined);
}

/// Plays a line.
fn play_visit(page: &mut Page, visit: &Visit, first: &str, octets: &[u8]) {
    match first {
        "deliver" => deliver(page, visit),
        "resend" => resend(page, visit),
        "hear" => hear(page, visit, octets),
        _ => meaning(page, visit, octets),
    }
}

/// `deliver CLIENT`: what waits goes out.
fn deliver(page: &mut Page, visit: &Visit) {
    let mut draft = Draft::new(page.alloc());
    let is_short = then_deliver(page.alloc(), visit, &mut draft).is_err();
    page.stop_if_short(is_short);
    print_draft(page, draft);
}

/// `resend CLIENT`: what was sent goes out again.
fn resend(page: &mut Page, visit: &Visit) {
    let mut draft = Draft::new(page.alloc());
    let is_short = then_resend(page.alloc(), visit, &mut draft).is_err();
    page.stop_if_short(is_short);
    print_draft(page, draft);
}

/// `hear CLIENT OCTETS ..`: the client answers, or releases its own message, by this frame.
fn hear(page: &mut Page, visit: &Visit, octets: &[u8]) {
    match read_frame(page.alloc(), octets) {
        Ok(frame) => {
            hear_frame(page, visit, &frame);
            drop(frame);
        }
        Err(FrameFault::Memory) => page.stop(Stop::Memory),
        Err(_) => page.stop(Stop::Line),
    }
}

/// What is drafted where this frame is heard.
fn hear_frame(page: &mut Page, visit: &Visit, frame: &Frame) {
    match heard(page.alloc(), visit, frame) {
        Ok(draft) => print_draft(page, draft),
        Err(_) => page.stop(Stop::Memory),
    }
}

/// The draft of a client that releases its own message by this frame, or acknowledges one.
fn heard(alloc: Global, visit: &Visit, frame: &Frame) -> Result<Draft, NoMemory> {
    match frame {
        Frame::PubRel { msg_id } => pubrel(alloc, visit.peer.address, visit.session, *msg_id),
        frame => acknowledge(alloc, visit, frame),
    }
}

/// `meaning CLIENT OCTETS ..`: what a publication is about with these flags and this topic field.
fn meaning(page: &mut Page, visit: &Visit, octets: &[u8]) {
    match octets {
        [bits, high, low] => {
            let flags = Flags { bits: *bits };
            print_meaning(page, visit, flags, u16::from_be_bytes([*high, *low]));
        }
        _ => page.stop(Stop::Line),
    }
}

/// What a publication is about, unless memory ran out.
fn print_meaning(page: &mut Page, visit: &Visit, flags: Flags, topic: u16) {
    match topic_meant(
        page.alloc(),
        visit.predefined,
        visit.session,
        flags.kind(),
        topic,
    ) {
        Ok(meant) => {
            print_meant(page, &meant);
            drop(meant);
        }
        Err(_) => page.stop(Stop::Memory),
    }
}

/// What a publication is about.
fn print_meant(page: &mut Page, meant: &Meant) {
    match meant {
        Meant::Topic(name) => print_octets(page, "topic ", name.bytes()),
        Meant::Refused(code) => {
            page.number("code ", u64::from(*code));
            page.end();
        }
    }
}
