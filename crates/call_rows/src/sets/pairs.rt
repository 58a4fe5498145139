//! A line that plays made-up deltas on both replicas, and compares after each what these say.

use crate::sets::backs::there_and_back;
use crate::sets::calls;
use crate::sets::made_up::{client, delta, next};
use crate::sets::page::Page;
use crate::sets::stop::Stop;
use crate::sets::words::Words;
use rep_model::{ClientView, Replica, TakeFault};
use rep_ops::{ClientId, Delta};
use rep_plain::Plain;
use rep_state::Folded;

/// The two replicas.
pub(crate) struct Pair {
    pub(crate) plain: Plain,
    pub(crate) folded: Folded,
}

impl Drop for Pair {
    fn drop(self) {
        let Pair { plain, folded } = self;
        drop(plain);
        drop(folded);
    }
}

/// How many deltas both took or refused, and after how many of them they said the same.
#[derive(Clone, Copy)]
struct Counts {
    deltas: u64,
    same: u64,
}

/// `pair SEED TIMES SIZE LEAST`: so many times both replicas take so many made-up operations, if
/// they are a delta; which so many are at least. `back` in place of `pair`: one of the two takes
/// two others before each, and goes back.
pub(crate) fn play_pair(page: &mut Page, words: &mut Words<'_>) {
    let (seed, times) = (words.number(), words.number());
    let (size, least) = (words.number(), words.number());
    if words.end() {
        let counts = run(words, seed, times, size);
        print_counts(page, counts, least);
    }
}

/// Whether the replicas said the same after each delta, and there were so many at least.
fn print_counts(page: &mut Page, counts: Counts, least: u64) {
    if counts.same == counts.deltas && counts.deltas >= least {
        page.line("the same after each delta");
    } else {
        page.labelled("the same after", counts.same);
        page.labelled("of", counts.deltas);
        page.line(" deltas");
    }
}

/// Both replicas take made-up deltas.
fn run(words: &mut Words<'_>, seed: u64, times: u64, size: u64) -> Counts {
    let mut counts = Counts { deltas: 0, same: 0 };
    if let Some(mut pair) = empty_pair(words) {
        count_each(words, &mut pair, &mut counts, (seed, times, size));
        drop(pair);
    }
    counts
}

/// Two empty replicas.
fn empty_pair(words: &mut Words<'_>) -> Option<Pair> {
    match Plain::empty(words.alloc) {
        Ok(plain) => pair_with(words, plain),
        Err(_) => {
            words.fail(Stop::Memory);
            None
        }
    }
}

/// An empty replica beside another.
fn pair_with(words: &mut Words<'_>, plain: Plain) -> Option<Pair> {
    match Folded::empty(words.alloc) {
        Ok(folded) => Some(Pair { plain, folded }),
        Err(_) => {
            words.fail(Stop::Memory);
            drop(plain);
            None
        }
    }
}

/// Both replicas take one made-up delta after the other: from this seed on, so many, of so many
/// operations. Before each one of the two may go back.
fn count_each(
    words: &mut Words<'_>,
    pair: &mut Pair,
    counts: &mut Counts,
    (seed, times, size): (u64, u64, u64),
) {
    let mut number = seed;
    for time in 0..times {
        number = there_and_back(words, pair, number, size, time % 2 == 0);
        number = next(number);
        if let Some(delta) = delta(words, number, size) {
            count(words, pair, counts, delta);
        }
    }
}

/// Both replicas take a delta, which is counted.
fn count(words: &mut Words<'_>, pair: &mut Pair, counts: &mut Counts, delta: Delta) {
    counts.deltas = counts.deltas.saturating_add(1);
    if take(words, pair, &delta) && are_same(words, pair) {
        counts.same = counts.same.saturating_add(1);
    }
    drop(delta);
}

/// Takes the delta in both: whether both took it, or refused it alike.
fn take(words: &mut Words<'_>, pair: &mut Pair, delta: &Delta) -> bool {
    let plain = calls::take(words.alloc, &mut pair.plain, delta);
    let folded = calls::take(words.alloc, &mut pair.folded, delta);
    keep_fault(words, &plain);
    keep_fault(words, &folded);
    let agreed = agree(&plain, &folded);
    drop(plain);
    drop(folded);
    agreed
}

/// Keeps the fault, if memory ran out before a replica could say whether it can take a delta.
pub(crate) fn keep_fault(words: &mut Words<'_>, taken: &Result<(), TakeFault>) {
    if matches!(taken, Err(TakeFault::Memory)) {
        words.fail(Stop::Memory);
    }
}

/// Whether both took a delta, or refused it alike.
fn agree(plain: &Result<(), TakeFault>, folded: &Result<(), TakeFault>) -> bool {
    match (plain, folded) {
        (Ok(_), Ok(_)) => true,
        (Err(plain), Err(folded)) => plain == folded,
        _ => false,
    }
}

/// Whether both say the same of all clients, and hold the same.
fn are_same(words: &mut Words<'_>, pair: &Pair) -> bool {
    for number in 0..4u64 {
        if !same_of(words, pair, number) {
            return false;
        }
    }
    same_clients(words, pair) && same_held(words, pair)
}

/// Whether both say the same of the client of a number.
fn same_of(words: &mut Words<'_>, pair: &Pair, number: u64) -> bool {
    match words.client_of(&client(number)) {
        Some(client) => {
            let same = same_views(pair, &client) && same_numbers(pair, &client);
            drop(client);
            same
        }
        None => false,
    }
}

/// Whether both know the same of a client.
fn same_views(pair: &Pair, client: &ClientId) -> bool {
    match (pair.plain.view_of(client), pair.folded.view_of(client)) {
        (None, None) => true,
        (Some(plain), Some(folded)) => same_view(plain, folded),
        _ => false,
    }
}

/// Whether two views are the same.
fn same_view(plain: &ClientView, folded: &ClientView) -> bool {
    plain.stamp == folded.stamp
        && plain.prefix == folded.prefix
        && plain.session == folded.session
        && plain.pending.as_slice() == folded.pending.as_slice()
}

/// Whether both give the client the same next numbers.
fn same_numbers(pair: &Pair, client: &ClientId) -> bool {
    if pair.plain.next_epoch(client) != pair.folded.next_epoch(client) {
        return false;
    }
    for gateway in 0..4u8 {
        if pair.plain.next_seq(client, gateway) != pair.folded.next_seq(client, gateway) {
            return false;
        }
    }
    true
}

/// Whether both know the same clients.
fn same_clients(words: &mut Words<'_>, pair: &Pair) -> bool {
    let plain = clients(words, &pair.plain);
    let folded = clients(words, &pair.folded);
    let same = plain.as_slice() == folded.as_slice();
    drop(plain);
    drop(folded);
    same
}

/// The clients that a replica knows.
fn clients<R: Replica>(words: &mut Words<'_>, replica: &R) -> Vec<ClientId> {
    match replica.clients(words.alloc) {
        Ok(clients) => clients,
        Err(_) => {
            words.fail(Stop::Memory);
            Vec::new(words.alloc)
        }
    }
}

/// Whether both hold the same.
fn same_held(words: &mut Words<'_>, pair: &Pair) -> bool {
    let plain = held(words, &pair.plain);
    let folded = held(words, &pair.folded);
    let same = plain.as_slice() == folded.as_slice();
    drop(plain);
    drop(folded);
    same
}

/// The octets of what a replica holds.
fn held<R: Replica>(words: &mut Words<'_>, replica: &R) -> Vec<u8> {
    let mut octets = Vec::new(words.alloc);
    match replica.held(words.alloc) {
        Ok(deltas) => {
            add_deltas(words, &mut octets, &deltas);
            drop(deltas);
        }
        Err(_) => words.fail(Stop::Memory),
    }
    octets
}

/// Puts the octets of deltas after those that are there.
fn add_deltas(words: &mut Words<'_>, octets: &mut Vec<u8>, deltas: &[Delta]) {
    for delta in deltas {
        if calls::write_delta(words.alloc, delta, octets).is_err() {
            words.fail(Stop::Memory);
        }
    }
}
