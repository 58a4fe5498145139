//! The report in words.

use crate::advice::{advice, number, slot_number, words};
use crate::changes::operation;
use crate::clients::{clients, retained};
use crate::looking::{Fault, Findings, Torn};
use crate::page::Page;
use jr_read::{Place, Reading};
use rep_ops::Delta;

/// The report in words.
pub(crate) fn report(page: &mut Page, seen: &Findings) {
    head(page, seen);
    if let Some(reading) = &seen.reading {
        read_part(page, reading, seen.is_fresh);
    }
    end(page, seen);
    if let Some(replica) = &seen.replica {
        clients(page, replica);
        retained(page, replica);
    }
}

/// Whose journal it is, and how long its slots are.
fn head(page: &mut Page, seen: &Findings) {
    whose(page, seen.gateway, seen.told);
    let [before, behind] = seen.generations;
    slot(page, "slot 0: octets ", seen.first, before);
    slot(page, "slot 1: octets ", seen.second, behind);
    if seen.is_fresh {
        page.text("no journal yet: an opening begins one\n");
    }
}

/// Which gateway would open it, and which one a header tells.
fn whose(page: &mut Page, gateway: Option<u8>, told: Option<u8>) {
    match gateway {
        Some(gateway) => page.value("gateway ", gateway),
        None => page.text("no gateway"),
    }
    match told {
        Some(told) => page.value("\nthe header tells gateway ", told),
        None => page.text("\nno header tells a gateway"),
    }
    page.text("\n");
}

/// How long a slot is, and its generation.
fn slot(page: &mut Page, front: &str, octets: usize, generation: Option<u64>) {
    page.value(front, octets);
    match generation {
        Some(generation) => page.value(", generation ", generation),
        None => page.text(", no header"),
    }
    page.text("\n");
}

/// What was read.
fn read_part(page: &mut Page, reading: &Reading, is_fresh: bool) {
    if !is_fresh {
        page.value("records of slot ", slot_number(reading.slot));
        page.value(", generation ", reading.generation);
        page.text("\n");
    }
    records(page, reading);
}

/// The records, each after a line with its place in that slot.
fn records(page: &mut Page, reading: &Reading) {
    let places = reading.places.as_slice();
    for (index, delta) in reading.records.as_slice().iter().enumerate() {
        record(page, index, places.get(index), delta);
    }
}

/// A record.
fn record(page: &mut Page, before: usize, found: Option<&Place>, delta: &Delta) {
    if let Some(place) = found {
        page.value("record ", before);
        page.value(" at ", place.at);
        page.value(", octets ", place.octets);
        page.text("\n");
    }
    for op in delta.ops() {
        operation(page, op);
    }
}

/// What the end cuts, and why an opening refuses.
fn end(page: &mut Page, seen: &Findings) {
    if let Some(torn) = &seen.torn {
        torn_end(page, torn);
    }
    if let Some(fault) = &seen.fault {
        refusal(page, fault);
    }
}

/// A record that the end cuts.
fn torn_end(page: &mut Page, torn: &Torn) {
    page.value("torn at ", torn.at);
    page.value(", octets ", torn.octets);
    page.text(": an opening cuts them away\n");
}

/// Why an opening refuses.
fn refusal(page: &mut Page, fault: &Fault) {
    page.value("refused J", number(fault));
    page.text(": ");
    words(page, fault);
    page.word("\nadvice: ", advice(fault));
    page.text("\n");
}
