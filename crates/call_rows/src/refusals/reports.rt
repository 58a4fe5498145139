//! The page of a gateway, the line of an event, and the tally of a history.

use crate::refusals::calls::{Calls, Made};
use crate::refusals::deltas::client;
use crate::refusals::said::Said;
use gw_page::{entry, page};
use gw_report::{Detail, Event, Glimpse, Health, Numbers, Report, Seen, Singles, What};
use gw_shift::tally;
use octets::Sequence;
use rep_ops::ClientId;
use std::alloc::Global;

/// A request, and a report with a client and an event.
#[derive(Drop)]
pub(crate) struct Reports {
    request: &'static [u8],
    report: Report,
}

impl Made for Reports {
    fn make(said: &mut Said, _call: &str, is_second: bool) -> Option<Reports> {
        let mut report = blank(said.alloc);
        add_client(said, &mut report);
        add_event(said, &mut report);
        Some(Reports {
            request: request(is_second),
            report,
        })
    }
}

impl Calls for Reports {
    fn call_once(&mut self, said: &mut Said, call: &str) {
        match call {
            "page" => ask(said, self.request, &self.report),
            "entry" => write_all(said, self.report.events.as_slice()),
            _ => count(said),
        }
    }
}

/// The request of a row's first call, or of its second.
fn request(is_second: bool) -> &'static [u8] {
    if is_second {
        b"GET /clients HTTP/1.0\r\n\r\n"
    } else {
        b"GET /metrics HTTP/1.0\r\n\r\n"
    }
}

/// Asks for a page, and prints how many octets the answer has.
fn ask(said: &mut Said, request: &[u8], report: &Report) {
    let answered = page(said.alloc, request, report);
    match &answered {
        Ok(answer) => answer_with(said, "octets", answer.len()),
        Err(_) => said.refuse(true),
    }
    drop(answered);
}

/// The call has answered with so many.
fn answer_with(said: &mut Said, word: &str, many: usize) {
    said.number(word, many);
    said.answer();
}

/// Prints the line of each event.
fn write_all(said: &mut Said, events: &[Event]) {
    for event in events {
        write(said, event);
    }
}

/// Prints the line of an event.
fn write(said: &mut Said, event: &Event) {
    let written = entry(said.alloc, event);
    match &written {
        Ok(line) => {
            said.page.append(line.as_bytes());
            said.page.push(b'\n');
            said.answer();
        }
        Err(_) => said.refuse(true),
    }
    drop(written);
}

/// Counts the calls of a history without any, and prints how many samples that gives.
fn count(said: &mut Said) {
    let counted = tally(said.alloc, &[]);
    match &counted {
        Ok(samples) => answer_with(said, "samples", samples.len()),
        Err(_) => said.refuse(true),
    }
    drop(counted);
}

/// A report without a client and without an event.
fn blank(alloc: Global) -> Report {
    Report {
        numbers: numbers(alloc),
        clients: Sequence::empty(alloc),
        events: Sequence::empty(alloc),
        health: Health {
            is_late: false,
            is_halted: false,
            has_failed: false,
        },
    }
}

/// The numbers of a gateway that has done nothing.
fn numbers(alloc: Global) -> Numbers {
    Numbers {
        singles: Singles::default(),
        frames_received: Sequence::empty(alloc),
        datagrams_sent: Sequence::empty(alloc),
        calls: Sequence::empty(alloc),
        compactions: Sequence::empty(alloc),
        reopenings: Sequence::empty(alloc),
        clients: Sequence::empty(alloc),
        journal_octets: Sequence::empty(alloc),
        links: Sequence::empty(alloc),
        link_refused: Sequence::empty(alloc),
        messages_known: Sequence::empty(alloc),
    }
}

/// The client is in a report, and nothing is known of it but its id.
fn add_client(said: &mut Said, report: &mut Report) {
    match client(said) {
        Some(client) => {
            let is_short = report.clients.push(seen(client)).is_err();
            said.stop_if_short(is_short);
        }
        None => {}
    }
}

/// A client of which nothing is known but its id.
fn seen(client: ClientId) -> Seen {
    Seen {
        glimpse: Glimpse {
            client,
            stamp: None,
            prefix: 0,
            session: None,
            waiting: 0,
            first: None,
            local: None,
        },
        silence: None,
        since: None,
    }
}

/// An event is in a report, which names the client.
fn add_event(said: &mut Said, report: &mut Report) {
    match client(said) {
        Some(client) => {
            let what = What::Detail(Detail::TakenOver { client, number: 3 });
            let is_short = report.events.push(Event { moment: 5, what }).is_err();
            said.stop_if_short(is_short);
        }
        None => {}
    }
}
