//! A row: what its lines have brought about so far, and the play of one more.

use crate::page::Page;
use crate::stop::Stop;
use crate::wires::loopback::{Questions, over_sockets};
use crate::wires::meeting::{Deed, meet, read_deed};
use crate::wires::options::{begin_on, files, lose, name, show};
use crate::wires::outside::{Hold, Outside};
use crate::wires::printing::{print_calls, print_count, print_notes, print_outcome, print_over};
use crate::wires::reports::{Sketch, add_client, be_ill};
use crate::wires::requests::{ask, ask_octets, entries};
use crate::wires::serving::{
    Crew, Gateway, Outcome, Shared, Sides, close, node_of, passes_back, serve_all, shift_of,
};
use crate::wires::wire::{Coming, Told};
use crate::words::Words;
use gw_shift::Pass;
use gw_wire::{Gate, Post};
use jr_journal::MemoryDisk;
use std::alloc::Global;
use std::mem;
use std::sync::Wait;
use std::thread::Threads;
use std::time::Clock;

/// What the lines of a row have brought about.
#[derive(Drop)]
pub(crate) struct Row {
    /// The text of the settings.
    pub(crate) toml: String,
    /// The gateway, where one is open.
    node: Option<Gateway>,
    plan: Plan,
    /// What the report of the next page says.
    sketch: Sketch,
}

/// What the next serving is given.
#[derive(Drop)]
struct Plan {
    workers: u64,
    steps: u64,
    turns: u64,
    /// Each send fails.
    fails: bool,
    hold: Option<Hold>,
    coming: Vec<Coming>,
    /// What happens when gateways meet.
    deeds: Vec<Deed>,
}

impl Row {
    /// A row without a line.
    pub(crate) fn new(alloc: Global) -> Row {
        Row {
            toml: String::new(alloc),
            node: None,
            plan: Plan::new(alloc),
            sketch: Sketch::new(alloc),
        }
    }
}

impl Plan {
    /// Two workers, 4,096 calls, and a turn of the reader for each thing that comes.
    fn new(alloc: Global) -> Plan {
        Plan {
            workers: 2,
            steps: 4_096,
            turns: 0,
            fails: false,
            hold: None,
            coming: Vec::new(alloc),
            deeds: Vec::new(alloc),
        }
    }
}

/// Plays a line whose first word this is. Each of the functions below knows the words of some
/// lines, and leaves all others to the next.
pub(crate) fn play<T>(rt: &T, page: &mut Page, row: &mut Row, first: &str, words: &mut Words)
where
    T: Threads + Wait + Sync + Clock,
{
    match first {
        "begin" => play_begin(page, row, words),
        "fail" => play_fail(page, row, words),
        "serve" => play_serve(rt, page, row, words),
        "meet" => play_meet(rt, page, row, words),
        "loopback" => play_loopback(rt, page, row, words),
        first => play_settings(page, row, first, words),
    }
}

/// Lines about the settings, and about the files that they name.
fn play_settings(page: &mut Page, row: &mut Row, first: &str, words: &mut Words) {
    match first {
        "gateway" => name(page, &mut row.toml, words),
        "settings" => show(page, row.toml.as_str(), words),
        "files" => files(&page.host(), page, row.toml.as_str(), words),
        "lose" => lose(&page.host(), page, words),
        first => play_page(page, row, first, words),
    }
}

/// Lines about the page of a gateway.
fn play_page(page: &mut Page, row: &mut Row, first: &str, words: &mut Words) {
    match first {
        "page" => ask(page, &mut row.sketch, words),
        "request" => ask_octets(page, &mut row.sketch, words),
        "entries" => entries(page, &mut row.sketch, words),
        first => play_report(page, row, first, words),
    }
}

/// Lines about its report, and those of the plan.
fn play_report(page: &mut Page, row: &mut Row, first: &str, words: &mut Words) {
    match first {
        "client" => add_client(page, &mut row.sketch, words, false),
        "stranger" => add_client(page, &mut row.sketch, words, true),
        "ill" => be_ill(page, &mut row.sketch, words),
        first => play_plan(page, &mut row.plan, first, words),
    }
}

/// Lines that say how the next serving goes.
fn play_plan(page: &mut Page, plan: &mut Plan, first: &str, words: &mut Words) {
    match first {
        "workers" => set(page, &mut plan.workers, words),
        "steps" => set(page, &mut plan.steps, words),
        "turns" => set(page, &mut plan.turns, words),
        "post" => set_post(page, &mut plan.fails, words),
        "hold" => set_hold(page, &mut plan.hold, words),
        first => play_happening(page, plan, first, words),
    }
}

/// Lines that say what comes, or what happens when gateways meet.
fn play_happening(page: &mut Page, plan: &mut Plan, first: &str, words: &mut Words) {
    match first {
        "datagram" => add_datagram(page, &mut plan.coming, words),
        "failure" => add_end(page, &mut plan.coming, words, Coming::Failure),
        "over" => add_end(page, &mut plan.coming, words, Coming::Over),
        first => add_deed(page, &mut plan.deeds, first, words),
    }
}

/// What happens when gateways meet, in a line whose first word this is.
fn add_deed(page: &mut Page, deeds: &mut Vec<Deed>, first: &str, words: &mut Words) {
    let deed = read_deed(first, words);
    if words.end(page) {
        let is_short = deeds.push(deed).is_err();
        page.stop_if_short(is_short);
    } else {
        drop(deed);
    }
}

/// `workers COUNT`, `steps COUNT`, `turns COUNT`.
fn set(page: &mut Page, count: &mut u64, words: &mut Words) {
    let number = words.whole();
    if words.end(page) {
        *count = number;
    }
}

/// `post fails`.
fn set_post(page: &mut Page, fails: &mut bool, words: &mut Words) {
    let word = words.word();
    words.require(word == "fails");
    if words.end(page) {
        *fails = true;
    }
}

/// `hold FIRST SECOND`.
fn set_hold(page: &mut Page, hold: &mut Option<Hold>, words: &mut Words) {
    let first = words.whole();
    let second = words.whole();
    if words.end(page) {
        *hold = Some(Hold { first, second });
    }
}

/// `datagram HOST MOMENT OCTETS`.
fn add_datagram(page: &mut Page, coming: &mut Vec<Coming>, words: &mut Words) {
    let host = words.large();
    let moment = words.whole();
    let bytes = words.digits();
    if words.end(page) {
        let datagram = Coming::Datagram {
            host,
            moment,
            bytes,
        };
        let is_short = coming.push(datagram).is_err();
        page.stop_if_short(is_short);
    } else {
        drop(bytes);
    }
}

/// `failure`, `over`: this comes.
fn add_end(page: &mut Page, coming: &mut Vec<Coming>, words: &mut Words, end: Coming) {
    if words.end(page) {
        let is_short = coming.push(end).is_err();
        page.stop_if_short(is_short);
    } else {
        drop(end);
    }
}

/// `meet`: gateways meet.
fn play_meet<T: Wait + Clock>(rt: &T, page: &mut Page, row: &mut Row, words: &mut Words) {
    if words.end(page) {
        let plan = plan_of(page, row);
        meet(rt, page, plan.deeds.as_slice());
        drop(plan);
    }
}

/// The plan of a row, which plans nothing any more.
fn plan_of(page: &mut Page, row: &mut Row) -> Plan {
    mem::replace(&mut row.plan, Plan::new(page.alloc()))
}

/// The open gateway of a row, which has none then.
fn taken_from(row: &mut Row) -> Option<Gateway> {
    row.node.take()
}

/// The open gateway of a row is this one.
fn give_to(row: &mut Row, node: Option<Gateway>) {
    drop(mem::replace(&mut row.node, node));
}

/// `begin`: the gateway is opened on the disk of the one that was open, or on an empty one.
fn play_begin(page: &mut Page, row: &mut Row, words: &mut Words) {
    if words.end(page) {
        let disk = disk_of(page.alloc(), taken_from(row));
        let node = begin_on(page, row.toml.as_str(), disk);
        give_to(row, node);
    }
}

/// The disk of a gateway, which is closed; an empty one where there is none.
fn disk_of(alloc: Global, node: Option<Gateway>) -> MemoryDisk {
    match node {
        Some(node) => node.into_disk(),
        None => MemoryDisk::new(alloc),
    }
}

/// `fail`: the next write of the open gateway's journal stops after five octets.
fn play_fail(page: &mut Page, row: &mut Row, words: &mut Words) {
    if words.end(page) {
        match &mut row.node {
            Some(node) => node.fail_next(5, false),
            None => page.stop(Stop::Line),
        }
    }
}

/// `serve`: serves what comes in a shift of the open gateway, and closes that.
fn play_serve<T: Threads + Wait + Sync + Clock>(
    rt: &T,
    page: &mut Page,
    row: &mut Row,
    words: &mut Words,
) {
    if words.end(page) {
        let plan = plan_of(page, row);
        let node = serve_on(rt, page, taken_from(row), &plan);
        give_to(row, node);
        drop(plan);
    }
}

/// Serves what comes in a shift of a gateway, which is closed then.
fn serve_on<T: Threads + Wait + Sync + Clock>(
    rt: &T,
    page: &mut Page,
    node: Option<Gateway>,
    plan: &Plan,
) -> Option<Gateway> {
    match opened(page, node, plan) {
        Some((shift, passes)) => Some(serve_in(rt, page, shift, passes, plan)),
        None => None,
    }
}

/// Serves what comes in a shift, and closes that.
fn serve_in<T: Threads + Wait + Sync + Clock>(
    rt: &T,
    page: &mut Page,
    shift: Shared,
    passes: Vec<Pass>,
    plan: &Plan,
) -> Gateway {
    let outcome = serve_noted(rt, page, &shift, passes, plan);
    finish(page, shift, outcome, plan.coming.len())
}

/// A gateway in a shift of its own.
fn opened(page: &mut Page, node: Option<Gateway>, plan: &Plan) -> Option<(Shared, Vec<Pass>)> {
    match node {
        Some(node) => shift_of(page, node, plan.workers, plan.steps),
        None => {
            page.stop(Stop::Line);
            None
        }
    }
}

/// Serves what comes, and prints how that ended and what the outside was asked.
fn serve_noted<T: Threads + Wait + Sync + Clock>(
    rt: &T,
    page: &mut Page,
    shift: &Shared,
    passes: Vec<Pass>,
    plan: &Plan,
) -> Outcome {
    let outside = Outside::new(rt, page.alloc(), plan.fails, plan.hold);
    let outcome = serve_told(rt, page.alloc(), shift, passes, plan, &outside);
    page.stop_if_short(outside.is_short());
    print_outcome(page, &outcome);
    let notes = outside.into_notes();
    print_notes(page, plan.coming.as_slice(), notes.as_slice());
    drop(notes);
    outcome
}

/// Serves what comes, with a turn for each thing and those that are asked for.
fn serve_told<T, O>(
    rt: &T,
    alloc: Global,
    shift: &Shared,
    passes: Vec<Pass>,
    plan: &Plan,
    outside: &O,
) -> Outcome
where
    T: Threads + Wait + Sync + Clock,
    O: Post + Gate + Sync,
{
    let turns = plan.turns.saturating_add(plan.coming.len() as u64);
    let mut wire = Told::new(plan.coming.as_slice());
    let sides = Sides {
        wire: &mut wire,
        post: outside,
        gate: outside,
        turns,
    };
    serve_all(rt, alloc, Crew { shift, passes }, sides)
}

/// Closes a shift, and prints what became of so many datagrams. Its gateway comes back.
fn finish(page: &mut Page, shift: Shared, outcome: Outcome, count: usize) -> Gateway {
    let mut outcome = outcome;
    let passes = mem::replace(&mut outcome.passes, Vec::new(page.alloc()));
    let over = close(shift, passes);
    print_calls(page, &outcome, over.history.as_slice(), count);
    drop(outcome);
    print_over(page, &over);
    node_of(over)
}

/// `loopback FIRST SECOND`: serves what comes over a socket in a shift of the open gateway, and
/// closes that: a datagram, and after its answer another one.
fn play_loopback<T: Threads + Wait + Sync + Clock>(
    rt: &T,
    page: &mut Page,
    row: &mut Row,
    words: &mut Words,
) {
    let questions = questions_of(words);
    if words.end(page) {
        let plan = plan_of(page, row);
        let node = ask_on(rt, page, taken_from(row), &plan, &questions);
        give_to(row, node);
        drop(plan);
    }
    drop(questions);
}

/// What words say is asked.
fn questions_of(words: &mut Words) -> Questions {
    Questions {
        first: words.digits(),
        second: words.digits(),
    }
}

/// Serves what is asked over a socket in a shift of a gateway, which is closed then.
fn ask_on<T: Threads + Wait + Sync + Clock>(
    rt: &T,
    page: &mut Page,
    node: Option<Gateway>,
    plan: &Plan,
    questions: &Questions,
) -> Option<Gateway> {
    match opened(page, node, plan) {
        Some((shift, passes)) => Some(ask_over(rt, page, shift, passes, questions)),
        None => None,
    }
}

/// Serves what is asked over a socket, closes the shift, and prints how that went. Its gateway
/// comes back.
fn ask_over<T: Threads + Wait + Sync + Clock>(
    rt: &T,
    page: &mut Page,
    shift: Shared,
    passes: Vec<Pass>,
    questions: &Questions,
) -> Gateway {
    let outcome = over_sockets(rt, page, &shift, passes, questions);
    print_outcome(page, &outcome);
    print_count(page, &outcome);
    let over = close(shift, passes_back(outcome));
    print_over(page, &over);
    node_of(over)
}
