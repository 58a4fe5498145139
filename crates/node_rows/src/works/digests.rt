//! Digests and answers at work.

use crate::calls::{answer_to, digest_of, held_by, write_delta, write_digest};
use crate::page::Page;
use crate::stop::{Stop, unworked};
use crate::works::check;
use crate::works::pair::{asker, peer};
use rep_digest::Digest;
use rep_ops::Delta;
use rep_plain::Plain;

/// Makes the digest of what the one gateway has, and the other's answer to it, so often, and says
/// how large they are beside all that the other holds.
pub(crate) fn run(page: &mut Page, rounds: u32) {
    run_on(page, rounds);
}

/// The same on a replica.
fn run_on(page: &mut Page, rounds: u32) {
    let asker = asker(page);
    let peer = peer(page);
    if let Some(asker) = &asker {
        if let Some(peer) = &peer {
            measure(page, asker, peer, rounds);
        }
    }
    drop(asker);
    drop(peer);
}

/// Digest and answer, so often: how large they are, and all that the other holds.
fn measure(page: &mut Page, asker: &Plain, peer: &Plain, rounds: u32) {
    for _ in 0..rounds {
        exchange(page, asker, peer);
    }
    match digest_of(page.alloc(), asker) {
        Ok(digest) => {
            print(page, peer, &digest);
            drop(digest);
        }
        Err(fault) => page.stop(unworked(&fault)),
    }
}

/// Digest and answer, once.
fn exchange(page: &mut Page, asker: &Plain, peer: &Plain) {
    match digest_of(page.alloc(), asker) {
        Ok(digest) => {
            drop(answer(page, peer, &digest));
            drop(digest);
        }
        Err(fault) => page.stop(unworked(&fault)),
    }
}

/// The answer to a digest; no delta if it was refused.
fn answer(page: &mut Page, peer: &Plain, digest: &Digest) -> Vec<Delta> {
    match answer_to(page.alloc(), peer, digest) {
        Ok(deltas) => deltas,
        Err(fault) => {
            page.stop(unworked(&fault));
            Vec::new(page.alloc())
        }
    }
}

/// How large a digest, the answer to it, and all that is held are.
fn print(page: &mut Page, peer: &Plain, digest: &Digest) {
    print_size(page, digest);
    let answer = answer(page, peer, digest);
    print_sizes(page, "; answers: ", answer.as_slice());
    drop(answer);
    print_held(page, peer);
    page.end();
}

/// How large all that is held is.
fn print_held(page: &mut Page, peer: &Plain) {
    match held_by(page.alloc(), peer) {
        Some(held) => {
            print_sizes(page, "; held: ", held.as_slice());
            drop(held);
        }
        None => page.stop(Stop::Memory),
    }
}

/// How many octets a digest has.
fn print_size(page: &mut Page, digest: &Digest) {
    let mut octets = Vec::new(page.alloc());
    let written = write_digest(page.alloc(), digest, &mut octets);
    check(page, written);
    page.length("digests: ", octets.len());
    page.text(" octets");
    drop(octets);
}

/// How many operations deltas have, and how many octets.
fn print_sizes(page: &mut Page, text: &str, deltas: &[Delta]) {
    let mut ops = 0_u64;
    let mut octets = 0_u64;
    for delta in deltas {
        ops = ops.wrapping_add(delta.ops().len() as u64);
        octets = octets.wrapping_add(octets_of(page, delta));
    }
    page.number(text, ops);
    page.number(" operations, ", octets);
    page.text(" octets");
}

/// How many octets a delta has.
fn octets_of(page: &mut Page, delta: &Delta) -> u64 {
    let mut octets = Vec::new(page.alloc());
    let written = write_delta(page.alloc(), delta, &mut octets);
    check(page, written);
    let count = octets.len() as u64;
    drop(octets);
    count
}
