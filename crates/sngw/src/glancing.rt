//! The clients of the gateway at a glance, once in some seconds.
//!
//! The lock of the shift is held for few clients at a time, and is let go between. Nothing of it is
//! a call.

use crate::board::{Board, Field};
use crate::gathering::MOST_LINKS;
use crate::program::{GatewayWork, Program};
use gw_link::{LinkNumbers, Phase};
use gw_report::Glimpse;
use std::sync::Wait;
use std::time::Clock;

/// For how many clients the lock of the shift is held at a time.
const AT_ONCE: usize = 4;

/// How often the lock is taken for clients at most: there are no more than 4,096 of them.
const MOST_LOOKS: usize = 1_024;

/// How many milliseconds pass before it is looked again whether it is time for a glance.
const GLANCE_WAIT_MS: u64 = 200;

/// Looks at the clients while the shift serves. If memory runs out, or the shift ends, the last
/// glance stays. Runs in a thread of its own; it takes the shift's lock for a few clients at a
/// time.
pub(crate) fn glance_all<T: Wait + Clock>(program: &Program<'_, T>, work: &GatewayWork<'_, T>) {
    let rt = program.rt;
    let board = &program.shared.board;
    for _ in rt.forever() {
        if work.stage.phase(rt) != Phase::Serving {
            return;
        }
        if board.may_glance(program.host) {
            match look(program, work) {
                Some(field) => board.put_field(rt, field),
                None => {}
            }
        }
        work.stage.wait(rt, Phase::Serving, GLANCE_WAIT_MS);
    }
    unreachable!()
}

/// All clients at a glance. `None` if memory runs out, or the shift ends.
fn look<T: Wait>(program: &Program<'_, T>, work: &GatewayWork<'_, T>) -> Option<Field> {
    note_gateways(program);
    let clock = &program.shared.pool.clock;
    let second = clock.second();
    let mut field = Field {
        clients: Vec::new(program.alloc),
        known: Vec::new(program.alloc),
        second,
        moment: clock.moment_of(second),
    };
    if find_gateways(&program.shared.board, &mut field) && look_at_all(work, &mut field) {
        return Some(field);
    }
    drop(field);
    None
}

/// Looks at the clients, some at a time, while the shift serves. Whether all were seen.
fn look_at_all<T: Wait>(work: &GatewayWork<'_, T>, field: &mut Field) -> bool {
    for _ in 0..MOST_LOOKS {
        let many = field.clients.len();
        if work.stage.phase(work.rt) != Phase::Serving || !look_on(work, field) {
            return false;
        }
        if field.clients.len() == many {
            return true;
        }
    }
    true
}

/// Looks at some clients more, if there are any. Whether there was memory for them.
fn look_on<T: Wait>(work: &GatewayWork<'_, T>, field: &mut Field) -> bool {
    let last = last_of(field.clients.as_slice());
    match work.shift.glance(work.rt, work.alloc, last, AT_ONCE) {
        Err(_) => false,
        Ok(found) => {
            let known = field.known.as_mut_slice();
            let is_counted = count_known(work, found.as_slice(), known);
            let is_kept = keep_all(&mut field.clients, found);
            is_kept && is_counted
        }
    }
}

/// The id of the last of these clients; none is above nothing.
fn last_of(clients: &[Glimpse]) -> &[u8] {
    match clients.last() {
        Some(glimpse) => glimpse.client.bytes(),
        None => &[],
    }
}

/// Puts clients after those that are there. Whether there was memory for them.
fn keep_all(clients: &mut Vec<Glimpse>, found: Vec<Glimpse>) -> bool {
    let mut is_kept = true;
    for glimpse in found {
        if !keep(clients, glimpse) {
            is_kept = false;
        }
    }
    is_kept
}

/// Puts a client after others. Whether there was memory for it.
fn keep(clients: &mut Vec<Glimpse>, glimpse: Glimpse) -> bool {
    clients.push(glimpse).is_ok()
}

/// Adds how many messages of each gateway are known for these clients. Whether there was memory for
/// that.
fn count_known<T: Wait>(
    work: &GatewayWork<'_, T>,
    found: &[Glimpse],
    known: &mut [(u8, u64)],
) -> bool {
    for entry in known {
        let (origin, before) = *entry;
        match work
            .shift
            .messages_known(work.rt, work.alloc, found, origin)
        {
            Err(_) => return false,
            Ok(counts) => {
                *entry = (origin, sum_after(before, counts.as_slice()));
                drop(counts);
            }
        }
    }
    true
}

/// A number and all of these.
fn sum_after(before: u64, counts: &[u64]) -> u64 {
    let mut sum = before;
    for count in counts {
        sum = sum.saturating_add(*count);
    }
    sum
}

/// Notes the gateways that this one has heard of: itself, those of the settings, and those that are
/// linked. If memory runs out, the last are noted at the next glance.
fn note_gateways<T: Wait>(program: &Program<'_, T>) {
    let board = &program.shared.board;
    let relay = &program.shared.pool.relay;
    board.note_gateway(program.settings.gateway);
    for number in program.settings.numbers.as_slice() {
        board.note_gateway(*number);
    }
    match relay.links(program.rt, program.alloc, MOST_LINKS) {
        Ok(links) => {
            note_linked(board, links.as_slice());
            drop(links);
        }
        Err(_) => {}
    }
}

/// Notes the gateways at the other ends of these links.
fn note_linked(board: &Board, links: &[LinkNumbers]) {
    for link in links {
        board.note_gateway(link.other);
    }
}

/// The gateways that were noted since the program began, without a message. Whether there was
/// memory for them.
fn find_gateways(board: &Board, field: &mut Field) -> bool {
    for number in 1..=u8::MAX {
        if board.has_gateway(number) && field.known.push((number, 0)).is_err() {
            return false;
        }
    }
    true
}
