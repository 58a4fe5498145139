//! The report as a JSON object. Names and messages are in hexadecimal digits.

use crate::advice::{advice, number, slot_number};
use crate::looking::{Fault, Findings, Torn};
use crate::members::{kept, operation, session_of, waiting};
use crate::page::Page;
use jr_journal::JournalFault;
use jr_read::{Misfit, Place, Reading};
use rep_model::{ClientView, MOST_CLIENTS, MOST_RETAINED, Replica, TakeFault};
use rep_ops::{ClientId, Delta, Stamp, Subject};
use rep_state::Folded;
use sn_session::Session;

/// The report as a JSON object.
pub(crate) fn report(page: &mut Page, seen: &Findings) {
    head(page, seen);
    if let Some(reading) = &seen.reading {
        read_part(page, reading, seen.is_fresh);
    }
    end(page, seen);
    if let Some(replica) = &seen.replica {
        clients(page, replica);
        topics(page, replica);
    }
    page.text("}\n");
}

/// Whose journal it is, and how long its slots are.
fn head(page: &mut Page, seen: &Findings) {
    gateway(page, "{\"gateway\":", seen.gateway);
    gateway(page, ",\"header\":", seen.told);
    page.value(",\"slots\":[", seen.first);
    page.value(",", seen.second);
    let [before, behind] = seen.generations;
    generation(page, "],\"generations\":[", before);
    generation(page, ",", behind);
    page.value("],\"fresh\":", seen.is_fresh);
}

/// The number of a gateway, if there is one, after this.
fn gateway(page: &mut Page, front: &str, found: Option<u8>) {
    match found {
        Some(number) => page.value(front, number),
        None => page.word(front, "null"),
    }
}

/// A generation, if there is one, after this.
fn generation(page: &mut Page, front: &str, found: Option<u64>) {
    match found {
        Some(number) => page.value(front, number),
        None => page.word(front, "null"),
    }
}

/// What was read.
fn read_part(page: &mut Page, reading: &Reading, is_fresh: bool) {
    if !is_fresh {
        page.value(",\"read\":{\"slot\":", slot_number(reading.slot));
        page.value(",\"generation\":", reading.generation);
        page.text("}");
    }
    records(page, reading);
}

/// The records.
fn records(page: &mut Page, reading: &Reading) {
    let places = reading.places.as_slice();
    page.begin(",\"records\":[");
    for (index, delta) in reading.records.as_slice().iter().enumerate() {
        record(page, places.get(index), delta);
    }
    page.end();
}

/// A record.
fn record(page: &mut Page, found: Option<&Place>, delta: &Delta) {
    page.item("{");
    if let Some(place) = found {
        page.value("\"at\":", place.at);
        page.value(",\"octets\":", place.octets);
        page.text(",");
    }
    operations(page, delta);
    page.text("}");
}

/// The operations of a record.
fn operations(page: &mut Page, delta: &Delta) {
    page.begin("\"operations\":[");
    for op in delta.ops() {
        operation(page, op);
    }
    page.end();
}

/// What the end cuts, and why an opening refuses.
fn end(page: &mut Page, seen: &Findings) {
    if let Some(torn) = &seen.torn {
        torn_end(page, torn);
    }
    if let Some(fault) = &seen.fault {
        refusal(page, fault);
    }
}

/// A record that the end cuts.
fn torn_end(page: &mut Page, torn: &Torn) {
    page.value(",\"torn\":{\"at\":", torn.at);
    page.value(",\"octets\":", torn.octets);
    page.text("}");
}

/// Why an opening refuses.
fn refusal(page: &mut Page, fault: &Fault) {
    page.value(",\"fault\":{\"number\":\"J", number(fault));
    page.text("\"");
    match fault {
        Fault::Journal(fault) => bad_place(page, *fault),
        Fault::Record(misfit) => bad_record(page, misfit),
    }
    page.word(",\"advice\":\"", advice(fault));
    page.text("\"}");
}

/// Where the octets are bad.
fn bad_place(page: &mut Page, fault: JournalFault) {
    if let JournalFault::BadRecord { slot, at } = fault {
        page.value(",\"slot\":", slot_number(slot));
        page.value(",\"at\":", at);
    }
}

/// Which record does not fit, and of what it contradicts another.
fn bad_record(page: &mut Page, misfit: &Misfit) {
    page.value(",\"record\":", misfit.before);
    if let TakeFault::Conflict { of } = &misfit.fault {
        match of {
            Subject::Client(client) => page.quoted(",\"client\":", client.bytes()),
            Subject::Topic(topic) => page.quoted(",\"topic\":", topic.bytes()),
        }
    }
}

/// What the records come to for each client.
fn clients(page: &mut Page, replica: &Folded) {
    page.begin(",\"clients\":[");
    let mut place = 0;
    for _ in 0..MOST_CLIENTS {
        let Some((behind, client, view)) = replica.client_at(place) else {
            break;
        };
        one_client(page, client, view);
        place = behind;
    }
    page.end();
}

/// A client.
fn one_client(page: &mut Page, client: &ClientId, view: &ClientView) {
    page.item("{");
    page.quoted("\"client\":", client.bytes());
    owner(page, &view.stamp, view.prefix);
    last_session(page, &view.session);
    waits(page, view);
    page.text("}");
}

/// Who owns a client, if a gateway does.
fn owner(page: &mut Page, found: &Option<Stamp>, prefix: u16) {
    if let Some(stamp) = found {
        page.value(",\"epoch\":", stamp.epoch);
        page.value(",\"gateway\":", stamp.gateway);
        page.value(",\"changes\":", prefix);
    }
}

/// The session of a client, if it has one.
fn last_session(page: &mut Page, found: &Option<Session>) {
    if let Some(session) = found {
        page.text(",");
        session_of(page, session);
    }
}

/// The messages that wait for a client.
fn waits(page: &mut Page, view: &ClientView) {
    page.begin(",\"waits\":[");
    for put in view.pending.as_slice() {
        page.item("{");
        waiting(page, put);
        page.text("}");
    }
    page.end();
}

/// What the records come to for each topic of which something was retained.
fn topics(page: &mut Page, replica: &Folded) {
    page.begin(",\"topics\":[");
    let mut place = 0;
    for _ in 0..MOST_RETAINED {
        let Some((behind, topic, retained)) = replica.topic_at(place) else {
            break;
        };
        page.item("{");
        page.quoted("\"topic\":", topic.bytes());
        page.text(",");
        kept(page, retained);
        page.text("}");
        place = behind;
    }
    page.end();
}
