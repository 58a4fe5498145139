//! Requests for the page of a gateway, whose report is made up.

use crate::page::Page;
use crate::stop::Stop;
use crate::wires::reports::{Sketch, report_of};
use crate::words::Words;
use gw_report::{Event, Report};
use octets::NoMemory;
use std::alloc::Global;

/// `page METHOD PATH`: the answer to a request of one line.
pub(crate) fn ask(page: &mut Page, sketch: &mut Sketch, words: &mut Words) {
    let method = words.word();
    let path = words.word();
    if words.end(page) {
        let mut request = String::new(page.alloc());
        add(page, &mut request, method);
        add(page, &mut request, " ");
        add(page, &mut request, path);
        add(page, &mut request, " HTTP/1.0\r\n\r\n");
        show(page, sketch, request.as_bytes());
        drop(request);
    }
}

/// A text more.
fn add(page: &mut Page, request: &mut String, text: &str) {
    let is_short = request.push_str(text).is_err();
    page.stop_if_short(is_short);
}

/// `request OCTETS`: the answer to these octets.
pub(crate) fn ask_octets(page: &mut Page, sketch: &mut Sketch, words: &mut Words) {
    let request = words.digits();
    if words.end(page) {
        show(page, sketch, request.as_slice());
    }
    drop(request);
}

/// The answer to a request, and whether more of the request may change it.
fn show(page: &mut Page, sketch: &mut Sketch, request: &[u8]) {
    if gw_page::may_grow(request) {
        page.text("may grow\n");
    }
    let report = report_of(page, sketch);
    show_answer(page, request, &report);
    drop(report);
}

/// The answer to a request.
fn show_answer(page: &mut Page, request: &[u8], report: &Report) {
    let answered = answer_to(page.alloc(), request, report);
    match &answered {
        Ok(answer) => print_answer(page, answer.as_slice()),
        Err(_) => page.stop(Stop::Memory),
    }
    drop(answered);
}

/// What is answered to a request.
fn answer_to(alloc: Global, request: &[u8], report: &Report) -> Result<Vec<u8>, NoMemory> {
    gw_page::page(alloc, request, report)
}

/// An answer, which is text.
fn print_answer(page: &mut Page, answer: &[u8]) {
    match str::from_utf8(answer) {
        Ok(answer) => print_parts(page, answer),
        Err(_) => page.stop(Stop::Line),
    }
}

/// A text, with `\r` for each carriage return.
fn print_parts(page: &mut Page, answer: &str) {
    let mut is_first = true;
    for part in answer.split('\r') {
        if !is_first {
            page.text("\\r");
        }
        is_first = false;
        page.text(part);
    }
}

/// `entries`: each event of the report, for the journal of the system.
pub(crate) fn entries(page: &mut Page, sketch: &mut Sketch, words: &mut Words) {
    if words.end(page) {
        let report = report_of(page, sketch);
        print_entries(page, report.events.as_slice());
        drop(report);
    }
}

/// The lines of events.
fn print_entries(page: &mut Page, events: &[Event]) {
    for event in events {
        print_entry(page, event);
        page.end();
    }
}

/// The line of an event.
fn print_entry(page: &mut Page, event: &Event) {
    let written = entry_of(page.alloc(), event);
    match &written {
        Ok(line) => page.text(line.as_str()),
        Err(_) => page.stop(Stop::Memory),
    }
    drop(written);
}

/// The line of an event for the journal of the system.
fn entry_of(alloc: Global, event: &Event) -> Result<String, NoMemory> {
    gw_page::entry(alloc, event)
}
