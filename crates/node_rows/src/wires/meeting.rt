//! Gateways that have links: two, or a chain of three.

use crate::calls::over;
use crate::page::Page;
use crate::stop::Stop;
use crate::wires::options::{begin_on, text_of};
use crate::wires::pipe::{Pipe, Place};
use crate::wires::printing::{print_answer, print_over};
use crate::wires::serving::{Gateway, close, node_of, shift_of};
use crate::words::Words;
use gw_link::{End, Link, Origin, Phase, Relay, Stage, Work, call, talk};
use gw_node::{Answer, Node, Step};
use gw_run::{Pool, Seat, sit};
use gw_shift::{Pass, Shift};
use jr_journal::MemoryDisk;
use octets::{Octets, read_u32};
use rep_plain::Plain;
use sn_local::Addr;
use std::alloc::Global;
use std::collections::VecDeque;
use std::io::{Read, Write};
use std::mem;
use std::sync::{Arc, Wait};
use std::time::Clock;

/// Something that happens at one of the gateways.
#[derive(Drop)]
pub(crate) struct Deed {
    /// The number of the gateway, 1 to 3.
    gateway: u64,
    act: Act,
}

/// What happens.
enum Act {
    /// A datagram of these octets comes, from port 1 of a host.
    Ask(u32, Vec<u8>),
    /// These octets come over its first link, and not from the other gateway.
    Come(Vec<u8>),
    /// Its links talk in turn, from this phase on, and to the end of the shift.
    Talk(Phase),
    /// Its first link talks so at a seat.
    Sit,
    /// Its shift is closed, and the next one begins.
    Turn,
    /// So many reads of its first link find nothing before the end of the next shift.
    Idle(u64),
    /// The stream of its first link takes so many octets at once.
    Takes(u64),
}

impl Drop for Act {
    fn drop(self) {
        match self {
            Act::Ask(_, inner) => drop(inner),
            Act::Come(inner) => drop(inner),
            Act::Talk(_) => {}
            Act::Sit => {}
            Act::Turn => {}
            Act::Idle(_) => {}
            Act::Takes(_) => {}
        }
    }
}

/// A gateway in its shift.
struct OpenShift {
    /// The memory.
    alloc: Global,
    /// The number of the gateway.
    number: u8,
    /// The shift. There is none if memory ran out.
    shift: Option<Shift<Plain, MemoryDisk>>,
    /// The pass of datagrams.
    pass: Option<Pass>,
    /// That of the links.
    seat: Option<Pass>,
}

impl Drop for OpenShift {
    fn drop(self) {
        let OpenShift {
            alloc: _,
            number: _,
            shift,
            pass,
            seat,
        } = self;
        drop(shift);
        drop(pass);
        drop(seat);
    }
}

/// A gateway's end of a link.
#[derive(Drop)]
struct Tie<'a, S: Drop> {
    /// The number of the other gateway.
    other: u8,
    place: &'a Place,
    /// The link, until it is lost.
    link: Option<Link<S>>,
}

/// One of the gateways, with its ends of links.
struct Side<'a, S: Drop> {
    open: OpenShift,
    /// What its links share.
    pool: Pool<S>,
    /// Its ends of links, that with the least number first.
    ties: VecDeque<Tie<'a, S>>,
}

impl<'a, S: Drop> Drop for Side<'a, S> {
    fn drop(self) {
        let Side { open, pool, ties } = self;
        drop(open);
        drop(pool);
        drop(ties);
    }
}

/// The ends of the links.
#[derive(Drop)]
struct Places {
    /// Those of the link between gateways 1 and 2.
    near: Place,
    far: Place,
    /// Those of the link between gateways 2 and 3.
    inner: Place,
    outer: Place,
}

/// What a line says of the meeting.
pub(crate) fn read_deed(first: &str, words: &mut Words) -> Deed {
    let gateway = words.whole();
    let act = read_act(first, words);
    Deed { gateway, act }
}

/// What the first word and those after the gateway say.
fn read_act(first: &str, words: &mut Words) -> Act {
    match first {
        "ask" => Act::Ask(words.large(), words.digits()),
        "come" => Act::Come(words.digits()),
        "talk" => Act::Talk(Phase::Serving),
        "last" => Act::Talk(Phase::Quiet),
        first => read_other(first, words),
    }
}

/// The same of the other words.
fn read_other(first: &str, words: &mut Words) -> Act {
    match first {
        "idle" => Act::Idle(words.whole()),
        "takes" => Act::Takes(words.whole()),
        "sit" => Act::Sit,
        first => {
            words.require(first == "turn");
            Act::Turn
        }
    }
}

/// `meet`: gateways 1 and 2 on empty disks, and a link that 1 dialled; where a line names gateway 3,
/// that one too, and a link that 2 dialled; and what happens then.
pub(crate) fn meet<T: Wait + Clock>(rt: &T, page: &mut Page, deeds: &[Deed]) {
    let places = Places::new(page.alloc());
    meet_between(rt, page, &places, deeds);
    page.stop_if_short(places.are_short());
    drop(places);
}

impl Places {
    /// Ends of links, to which nothing has come.
    fn new(alloc: Global) -> Places {
        Places {
            near: Place::new(alloc),
            far: Place::new(alloc),
            inner: Place::new(alloc),
            outer: Place::new(alloc),
        }
    }

    /// Whether memory ran out when something was said at any of them.
    fn are_short(&self) -> bool {
        let is_first_short = self.near.is_short() || self.far.is_short();
        let is_last_short = self.inner.is_short() || self.outer.is_short();
        is_first_short || is_last_short
    }
}

/// Gateways on empty disks meet over links with these ends.
fn meet_between<'a, T: Wait + Clock>(
    rt: &'a T,
    page: &mut Page,
    places: &'a Places,
    deeds: &[Deed],
) {
    let mut sides = Vec::new(page.alloc());
    gather(rt, page, places, &mut sides, are_three(deeds));
    begin_all(page, &mut sides);
    play_deeds(rt, page, &mut sides, deeds);
    end_all(page, &mut sides);
    drop(sides);
}

/// Whether something happens at gateway 3.
fn are_three(deeds: &[Deed]) -> bool {
    for deed in deeds {
        if deed.gateway == 3 {
            return true;
        }
    }
    false
}

/// Two gateways, or three, have their links, and no shift yet.
fn gather<'a, T: Wait>(
    rt: &'a T,
    page: &mut Page,
    places: &'a Places,
    sides: &mut Vec<Side<'a, Pipe<'a, T>>>,
    are_three: bool,
) {
    add_side(page, sides, 1);
    add_side(page, sides, 2);
    join(rt, page, sides, (1, &places.near), (2, &places.far));
    if are_three {
        add_side(page, sides, 3);
        join(rt, page, sides, (2, &places.inner), (3, &places.outer));
    }
}

/// A gateway of this number, without a shift and without a link, comes after the others.
fn add_side<'a, S: Drop>(page: &mut Page, sides: &mut Vec<Side<'a, S>>, number: u8) {
    let alloc = page.alloc();
    match Pool::new(alloc, 1, &[]) {
        Some(pool) => put_side(page, sides, side_with(alloc, number, pool)),
        None => page.stop(Stop::Memory),
    }
}

/// A gateway of this number, whose links share this.
fn side_with<'a, S: Drop>(alloc: Global, number: u8, pool: Pool<S>) -> Side<'a, S> {
    Side {
        open: OpenShift {
            alloc,
            number,
            shift: None,
            pass: None,
            seat: None,
        },
        pool,
        ties: VecDeque::new(alloc),
    }
}

/// Puts a gateway after the others.
fn put_side<'a, S: Drop>(page: &mut Page, sides: &mut Vec<Side<'a, S>>, side: Side<'a, S>) {
    let is_short = sides.push(side).is_err();
    page.stop_if_short(is_short);
}

/// A link between two gateways, which the first one dialled. Each has its number and its end.
fn join<'a, T: Wait>(
    rt: &'a T,
    page: &mut Page,
    sides: &mut Vec<Side<'a, Pipe<'a, T>>>,
    dialler: (u8, &'a Place),
    dialled: (u8, &'a Place),
) {
    let near = Pipe::new(rt, page.alloc(), dialler.1, dialled.1);
    add_tie(page, sides, dialler, dialled.0, near, Origin::Dialled(0));
    let far = Pipe::new(rt, page.alloc(), dialled.1, dialler.1);
    add_tie(page, sides, dialled, dialler.0, far, Origin::Accepted);
}

/// A gateway has an end of a link to another one, with this stream, after those that it has.
fn add_tie<'a, S: Drop>(
    page: &mut Page,
    sides: &mut Vec<Side<'a, S>>,
    here: (u8, &'a Place),
    other: u8,
    stream: S,
    origin: Origin,
) {
    match side_of(sides, u64::from(here.0)) {
        Some(side) => {
            let tie = tie_of(page.alloc(), other, here.1, stream, origin);
            put_last(page, &mut side.ties, tie);
        }
        None => drop(stream),
    }
}

/// An end of a link to a gateway of this number, with this stream.
fn tie_of<'a, S: Drop>(
    alloc: Global,
    other: u8,
    place: &'a Place,
    stream: S,
    origin: Origin,
) -> Tie<'a, S> {
    Tie {
        other,
        place,
        link: Some(Link::new(alloc, stream, origin)),
    }
}

/// The gateway of a number.
fn side_of<'b, 'a, S: Drop>(
    sides: &'b mut Vec<Side<'a, S>>,
    number: u64,
) -> Option<&'b mut Side<'a, S>> {
    if number == 0 {
        return None;
    }
    sides.get_mut((number - 1) as usize)
}

/// Puts an end of a link after the others of a gateway.
fn put_last<'a, S: Drop>(page: &mut Page, ties: &mut VecDeque<Tie<'a, S>>, tie: Tie<'a, S>) {
    let is_short = ties.push_back(tie).is_err();
    page.stop_if_short(is_short);
}

/// Each gateway is opened on an empty disk, and its first shift begins.
fn begin_all<'a, S: Drop>(page: &mut Page, sides: &mut Vec<Side<'a, S>>) {
    for side in sides.iter_mut() {
        begin(page, &mut side.open);
    }
}

/// A gateway is opened on an empty disk, and its first shift begins.
fn begin(page: &mut Page, opened: &mut OpenShift) {
    match gateway_of(page, opened.number) {
        Some(node) => open_shift(page, opened, node),
        // Nothing else refuses on an empty disk in memory.
        None => page.stop(Stop::Memory),
    }
}

/// A gateway of this number on an empty disk.
fn gateway_of(page: &mut Page, number: u8) -> Option<Gateway> {
    let toml = text_of(page, number);
    let disk = MemoryDisk::new(page.alloc());
    let node = begin_on(page, toml.as_str(), disk);
    drop(toml);
    node
}

/// A shift of a gateway begins, with a pass for datagrams and one for the links.
fn open_shift(page: &mut Page, opened: &mut OpenShift, node: Node<Plain, MemoryDisk>) {
    if let Some((shift, passes)) = shift_of(page, node, 2, 4_096) {
        sit_in(opened, passes);
        drop(mem::replace(&mut opened.shift, Some(shift)));
    }
}

/// The passes of a shift are these two.
fn sit_in(opened: &mut OpenShift, mut passes: Vec<Pass>) {
    drop(mem::replace(&mut opened.pass, passes.pop()));
    drop(mem::replace(&mut opened.seat, passes.pop()));
    drop(passes);
}

/// Each shift ends. The program ends if memory was refused in a disk.
fn end_all<'a, S: Drop>(page: &mut Page, sides: &mut Vec<Side<'a, S>>) {
    for side in sides.iter_mut() {
        end_shift(page, &mut side.open);
    }
}

/// The shift of a gateway ends. The program ends if memory was refused in its disk.
fn end_shift(page: &mut Page, opened: &mut OpenShift) {
    if let Some(shift) = opened.shift.take() {
        let over = over(shift);
        page.stop_if_short(over.node.starved());
        drop(over);
    }
}

/// Things happen at the gateways, up to the first that ends the play.
fn play_deeds<'a, T: Wait + Clock, S: Read + Write + Drop>(
    rt: &T,
    page: &mut Page,
    sides: &mut Vec<Side<'a, S>>,
    deeds: &[Deed],
) {
    for deed in deeds {
        if page.reason().is_none() {
            match side_of(sides, deed.gateway) {
                Some(side) => happen(rt, page, side, &deed.act),
                None => page.stop(Stop::Line),
            }
        }
    }
}

/// Something happens at a gateway.
fn happen<'a, T: Wait + Clock, S: Read + Write + Drop>(
    rt: &T,
    page: &mut Page,
    side: &mut Side<'a, S>,
    act: &Act,
) {
    let opened = &mut side.open;
    let pool = &side.pool;
    let ties = &mut side.ties;
    match act {
        Act::Talk(phase) => talk_all(rt, page, opened, &pool.relay, ties, *phase),
        Act::Sit => sit_down(rt, page, opened, pool, ties),
        Act::Turn => turn(rt, page, opened, pool, ties),
        act => happen_first(rt, page, opened, ties, act),
    }
}

/// Something happens at a gateway with these ends of links, by way of the first one.
fn happen_first<'a, T: Wait, S: Drop>(
    rt: &T,
    page: &mut Page,
    opened: &mut OpenShift,
    ties: &VecDeque<Tie<'a, S>>,
    act: &Act,
) {
    match ties.front() {
        Some(tie) => happen_at(rt, page, opened, tie.place, act),
        None => page.stop(Stop::Line),
    }
}

/// Something happens at a gateway whose first link has this place.
fn happen_at<T: Wait>(rt: &T, page: &mut Page, opened: &mut OpenShift, place: &Place, act: &Act) {
    match act {
        Act::Ask(host, octets) => ask(rt, page, opened, place.stage(), *host, octets.as_slice()),
        act => happen_to(rt, page, place, act),
    }
}

/// Something happens to a link with this place.
fn happen_to<T: Wait>(rt: &T, page: &mut Page, place: &Place, act: &Act) {
    match act {
        Act::Come(octets) => {
            let has_come = place.come(rt, page.alloc(), octets.as_slice());
            page.stop_if_short(!has_come);
        }
        Act::Idle(count) => place.set_idle(*count),
        Act::Takes(count) => place.set_takes(*count),
        _ => page.stop(Stop::Line),
    }
}

/// A datagram comes, from port 1 of a host, at moment 5.
fn ask<T: Wait>(
    rt: &T,
    page: &mut Page,
    opened: &mut OpenShift,
    stage: &Stage,
    host: u32,
    octets: &[u8],
) {
    match step_of(page.alloc(), host, octets) {
        Some(step) => ask_step(rt, page, opened, stage, step),
        None => page.stop(Stop::Memory),
    }
}

/// The call of a datagram, if there is memory for it.
fn step_of(alloc: Global, host: u32, octets: &[u8]) -> Option<Arc<Step>> {
    let from = Addr { host, port: 1 };
    let bytes = Octets::from_slice(alloc, octets).ok()?;
    let step = Step::Frame {
        from,
        bytes,
        now: 5,
    };
    Arc::new(alloc, step).ok()
}

/// A call is made, and what was answered is printed.
fn ask_step<T: Wait>(
    rt: &T,
    page: &mut Page,
    opened: &mut OpenShift,
    stage: &Stage,
    step: Arc<Step>,
) {
    let pass = &mut opened.pass;
    match &opened.shift {
        Some(shift) => {
            let work = Work {
                rt,
                alloc: page.alloc(),
                shift,
                stage,
            };
            let answered = call_by(&work, pass, step);
            print_asked(page, opened.number, &answered);
            drop(answered);
        }
        None => {
            drop(step);
            page.stop(Stop::Line);
        }
    }
}

/// A pass makes a call, and stays where it is.
fn call_by<T: Wait>(
    work: &Work<'_, T, Plain, MemoryDisk>,
    kept: &mut Option<Pass>,
    step: Arc<Step>,
) -> Result<Answer, End> {
    match kept.take() {
        Some(pass) => {
            let (pass, answered) = call(work, pass, step);
            put_pass(kept, pass);
            answered
        }
        None => {
            drop(step);
            Err(End::Memory)
        }
    }
}

/// A pass is put where it was.
fn put_pass(kept: &mut Option<Pass>, pass: Pass) {
    drop(mem::replace(kept, Some(pass)));
}

/// What was answered to a datagram.
fn print_asked(page: &mut Page, number: u8, answered: &Result<Answer, End>) {
    page.shown("", &number);
    page.text(" was asked");
    match answered {
        Ok(answer) => print_answer(page, answer),
        Err(End::Memory) => page.stop(Stop::Memory),
        Err(end) => page.shown(": ", end),
    }
    page.end();
}

/// The links of a gateway talk in turn, from a phase of the shift on, each to the end of the shift.
fn talk_all<'a, T: Wait + Clock, S: Read + Write + Drop>(
    rt: &T,
    page: &mut Page,
    opened: &mut OpenShift,
    relay: &Relay,
    ties: &mut VecDeque<Tie<'a, S>>,
    phase: Phase,
) {
    for tie in ties.iter_mut() {
        if page.reason().is_none() {
            talk_once(rt, page, opened, relay, tie, phase);
        }
    }
}

/// A link of a gateway talks, and what it said is printed.
fn talk_once<'a, T: Wait + Clock, S: Read + Write + Drop>(
    rt: &T,
    page: &mut Page,
    opened: &mut OpenShift,
    relay: &Relay,
    tie: &mut Tie<'a, S>,
    phase: Phase,
) {
    match talk_from(rt, opened, relay, tie, phase) {
        Some(end) => {
            leave_if_lost(rt, relay, &mut tie.link, end);
            print_talk(rt, page, opened.number, tie.other, tie.place, end);
        }
        None => page.stop(Stop::Line),
    }
}

/// A link of a gateway talks, from a phase of the shift on. Says why it stopped; nothing if it is
/// lost.
fn talk_from<'a, T: Wait + Clock, S: Read + Write + Drop>(
    rt: &T,
    opened: &mut OpenShift,
    relay: &Relay,
    tie: &mut Tie<'a, S>,
    phase: Phase,
) -> Option<End> {
    let place = tie.place;
    match &mut tie.link {
        Some(link) => {
            place.stage().go_to(rt, phase);
            Some(talk_over(rt, opened, relay, link, place.stage()))
        }
        None => None,
    }
}

/// A link of a gateway talks to the end of the shift. Says why it stopped.
fn talk_over<T: Wait + Clock, S: Read + Write + Drop>(
    rt: &T,
    opened: &mut OpenShift,
    relay: &Relay,
    link: &mut Link<S>,
    stage: &Stage,
) -> End {
    match Vec::from_elem(opened.alloc, 0u8, 65_536) {
        Ok(mut piece) => {
            let end = talk_with(rt, opened, relay, link, stage, piece.as_mut_slice());
            drop(piece);
            end
        }
        Err(_) => End::Memory,
    }
}

/// The same, with room for what comes.
fn talk_with<T: Wait + Clock, S: Read + Write + Drop>(
    rt: &T,
    opened: &mut OpenShift,
    relay: &Relay,
    link: &mut Link<S>,
    stage: &Stage,
    piece: &mut [u8],
) -> End {
    let alloc = opened.alloc;
    let number = opened.number;
    let seat = &mut opened.seat;
    match &opened.shift {
        Some(shift) => {
            let work = Work {
                rt,
                alloc,
                shift,
                stage,
            };
            talk_by(&work, seat, link, number, piece, relay)
        }
        // A gateway without a shift had no memory for it.
        None => End::Memory,
    }
}

/// The same by the pass of this seat, which sits down again.
fn talk_by<T: Wait + Clock, S: Read + Write + Drop>(
    work: &Work<'_, T, Plain, MemoryDisk>,
    seat: &mut Option<Pass>,
    link: &mut Link<S>,
    number: u8,
    piece: &mut [u8],
    relay: &Relay,
) -> End {
    match seat.take() {
        Some(pass) => {
            let (pass, end) = talk(work, pass, link, number, piece, relay);
            put_pass(seat, pass);
            end
        }
        None => End::Memory,
    }
}

/// A link that has not talked to the end of the shift is lost.
fn leave_if_lost<T: Wait, S: Drop>(rt: &T, relay: &Relay, link: &mut Option<Link<S>>, end: End) {
    if end != End::Full {
        if let Some(link) = link.take() {
            relay.leave(rt, link.place);
            drop(link);
        }
    }
}

/// What a link has said, and why it has stopped to talk.
fn print_talk<T: Wait>(rt: &T, page: &mut Page, number: u8, other: u8, place: &Place, end: End) {
    print_said(rt, page, number, other, place);
    print_end(page, number, end);
}

/// Why a link has stopped to talk, unless memory ran out.
fn print_end(page: &mut Page, number: u8, end: End) {
    page.stop_if_short(end == End::Memory);
    if end != End::Full {
        page.shown("", &number);
        page.shown(" ends: ", &end);
        page.end();
    }
}

/// The messages that a gateway has said over a link. The front part of one waits for its rest.
fn print_said<T: Wait>(rt: &T, page: &mut Page, number: u8, other: u8, place: &Place) {
    let said = place.take_said(rt, Vec::new(page.alloc()));
    let rest = print_messages(page, number, other, said.as_slice());
    put_back(rt, page, place, rest);
    drop(said);
}

/// Prints the messages in front of octets. What is left is the front part of one.
fn print_messages<'b>(page: &mut Page, number: u8, other: u8, said: &'b [u8]) -> &'b [u8] {
    let to = if other == 3 { " to 3" } else { "" };
    let mut rest = said;
    for _ in 0..said.len() {
        let Some((kind, body, behind)) = first_of(rest) else {
            break;
        };
        print_message(page, number, to, kind, body);
        rest = behind;
    }
    rest
}

/// Octets that were said and not printed wait.
fn put_back<T: Wait>(rt: &T, page: &mut Page, place: &Place, rest: &[u8]) {
    match Vec::from_slice(page.alloc(), rest) {
        Ok(left) => drop(place.take_said(rt, left)),
        Err(_) => page.stop(Stop::Memory),
    }
}

/// The kind and the body of the message in front of octets, and what comes after it.
fn first_of(octets: &[u8]) -> Option<(u8, &[u8], &[u8])> {
    let (kind, rest) = octets.split_first()?;
    let (size, rest) = read_u32(rest)?;
    if rest.len() < size as usize {
        return None;
    }
    let (body, behind) = rest.split_at(size as usize);
    Some((*kind, body, behind))
}

/// A message, and to whom, where that is to be told.
fn print_message(page: &mut Page, number: u8, to: &str, kind: u8, body: &[u8]) {
    let word = match kind {
        1 => " hello ",
        2 => " digest ",
        _ => " delta ",
    };
    page.shown("", &number);
    page.text(" says");
    page.text(to);
    page.octets(word, body);
    page.end();
}

/// The first link of a gateway talks at a seat, and then it is closed. From then on it is the last.
fn sit_down<'a, T: Wait + Clock, S: Read + Write + Drop>(
    rt: &T,
    page: &mut Page,
    opened: &mut OpenShift,
    pool: &Pool<S>,
    ties: &mut VecDeque<Tie<'a, S>>,
) {
    match ties.pop_front() {
        Some(mut tie) => {
            sit_with(rt, page, opened, pool, &mut tie);
            put_last(page, ties, tie);
        }
        None => page.stop(Stop::Line),
    }
}

/// A link of a gateway talks at a seat, and then it is closed.
fn sit_with<'a, T: Wait + Clock, S: Read + Write + Drop>(
    rt: &T,
    page: &mut Page,
    opened: &mut OpenShift,
    pool: &Pool<S>,
    tie: &mut Tie<'a, S>,
) {
    match seek_seat(rt, pool, &mut tie.link) {
        Some(origin) => {
            if is_closed(rt, pool, origin) {
                page.stop(Stop::Memory);
            } else {
                sit_at(rt, page, opened, pool, tie, origin);
            }
        }
        None => page.stop(Stop::Line),
    }
}

/// A link waits for a seat. Says which end made it; nothing if it is lost.
fn seek_seat<T: Wait, S: Drop>(
    rt: &T,
    pool: &Pool<S>,
    link: &mut Option<Link<S>>,
) -> Option<Origin> {
    match link.take() {
        Some(link) => {
            let origin = link.origin;
            pool.open(rt, link);
            Some(origin)
        }
        None => None,
    }
}

/// A link that waits talks at a seat, and then it is closed.
fn sit_at<'a, T: Wait + Clock, S: Read + Write + Drop>(
    rt: &T,
    page: &mut Page,
    opened: &mut OpenShift,
    pool: &Pool<S>,
    tie: &Tie<'a, S>,
    origin: Origin,
) {
    let number = opened.number;
    let place = tie.place;
    let end = serve_seat(rt, page.alloc(), opened, pool, place.stage());
    print_talk(rt, page, number, tie.other, place, end);
    print_room(rt, page, number, pool, origin);
    pool.close_all(rt);
    print_room(rt, page, number, pool, origin);
}

/// Serves the first seat of a gateway's pool. Says why its link stopped.
fn serve_seat<T: Wait + Clock, S: Read + Write + Drop>(
    rt: &T,
    alloc: Global,
    opened: &mut OpenShift,
    pool: &Pool<S>,
    stage: &Stage,
) -> End {
    let number = opened.number;
    let seat = &mut opened.seat;
    match &opened.shift {
        Some(shift) => {
            stage.go_to(rt, Phase::Serving);
            let work = Work {
                rt,
                alloc,
                shift,
                stage,
            };
            sit_by(&work, seat, pool, number)
        }
        // A gateway without a shift had no memory for it.
        None => End::Memory,
    }
}

/// Serves a seat by its pass, which sits down again. Says why its link stopped.
fn sit_by<T: Wait + Clock, S: Read + Write + Drop>(
    work: &Work<'_, T, Plain, MemoryDisk>,
    seat: &mut Option<Pass>,
    pool: &Pool<S>,
    number: u8,
) -> End {
    match seat.take() {
        Some(pass) => {
            let given = Seat { pass, end: None };
            let sat = sit(work, given, pool, number);
            put_pass(seat, sat.pass);
            sat.end.unwrap_or(End::Full)
        }
        None => End::Memory,
    }
}

/// Whether a link that was dialled is closed: a pool closes one that it has no memory for.
fn is_closed<T: Wait, S: Drop>(rt: &T, pool: &Pool<S>, origin: Origin) -> bool {
    match origin {
        Origin::Dialled(_) => pool.may_open(rt, origin),
        Origin::Accepted => false,
    }
}

/// Whether a gateway's link is open still.
fn print_room<T: Wait, S: Drop>(
    rt: &T,
    page: &mut Page,
    number: u8,
    pool: &Pool<S>,
    origin: Origin,
) {
    let state = match origin {
        Origin::Dialled(_) if pool.may_open(rt, origin) => " may dial\n",
        Origin::Dialled(_) => " has dialled\n",
        Origin::Accepted => " accepts\n",
    };
    page.shown("", &number);
    page.text(state);
}

/// A shift of a gateway is closed, and the next one begins, also for its links.
fn turn<'a, T: Wait, S: Drop>(
    rt: &T,
    page: &mut Page,
    opened: &mut OpenShift,
    pool: &Pool<S>,
    ties: &mut VecDeque<Tie<'a, S>>,
) {
    turn_shift(page, opened);
    pool.begin_shift(rt);
    begin_links(ties);
}

/// Closes the shift of a gateway, prints how it went, and opens the next one.
fn turn_shift(page: &mut Page, opened: &mut OpenShift) {
    match opened.shift.take() {
        Some(shift) => {
            let node = closed(page, opened, shift);
            open_shift(page, opened, node);
        }
        None => page.stop(Stop::Line),
    }
}

/// Closes a shift of a gateway with its passes, and prints how it went.
fn closed(
    page: &mut Page,
    opened: &mut OpenShift,
    shift: Shift<Plain, MemoryDisk>,
) -> Node<Plain, MemoryDisk> {
    let passes = passes_of(page, opened);
    let over = close(shift, passes);
    page.shown("", &opened.number);
    page.text(" ");
    print_over(page, &over);
    node_of(over)
}

/// The passes of a shift, which is to be closed.
fn passes_of(page: &mut Page, opened: &mut OpenShift) -> Vec<Pass> {
    let mut passes = Vec::new(page.alloc());
    add_pass(page, &mut passes, opened.pass.take());
    add_pass(page, &mut passes, opened.seat.take());
    passes
}

/// Puts a pass after others, if it is there.
fn add_pass(page: &mut Page, passes: &mut Vec<Pass>, pass: Option<Pass>) {
    if let Some(pass) = pass {
        let is_short = passes.push(pass).is_err();
        page.stop_if_short(is_short);
    }
}

/// The next shift begins for the links of a gateway.
fn begin_links<'a, S: Drop>(ties: &mut VecDeque<Tie<'a, S>>) {
    for tie in ties.iter_mut() {
        tie.place.turn();
        if let Some(link) = &mut tie.link {
            link.begin_shift();
        }
    }
}
