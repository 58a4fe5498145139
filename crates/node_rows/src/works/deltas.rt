//! The codec of deltas at work.

use crate::calls::{delta_of, read_delta, write_delta};
use crate::page::Page;
use crate::stop::unworked;
use crate::works::check;
use crate::works::numbers::checksum;
use crate::works::operations::operations;
use rep_ops::Delta;

/// Encodes and decodes the delta so often, and says how many operations were read, and what was
/// written.
pub(crate) fn run(page: &mut Page, rounds: u32) {
    let ops = operations(page);
    match delta_of(page.alloc(), ops) {
        Ok(delta) => {
            print_rounds(page, &delta, rounds);
            drop(delta);
        }
        Err(fault) => page.stop(unworked(&fault)),
    }
}

/// What the rounds read and wrote.
fn print_rounds(page: &mut Page, delta: &Delta, rounds: u32) {
    let mut octets = Vec::new(page.alloc());
    let count = all(page, delta, &mut octets, rounds);
    page.number("deltas: ", count);
    page.length(" operations, ", octets.len());
    page.checksum(" octets a round, checksum ", checksum(&octets));
    page.end();
    drop(octets);
}

/// All rounds: how many operations were read.
fn all(page: &mut Page, delta: &Delta, octets: &mut Vec<u8>, rounds: u32) -> u64 {
    let mut count = 0_u64;
    for _ in 0..rounds {
        octets.clear();
        let written = write_delta(page.alloc(), delta, octets);
        check(page, written);
        count = count.wrapping_add(read(page, octets));
    }
    count
}

/// How many operations the delta has that octets spell.
fn read(page: &mut Page, octets: &[u8]) -> u64 {
    match read_delta(page.alloc(), octets) {
        Ok(delta) => {
            let count = delta.ops().len() as u64;
            drop(delta);
            count
        }
        Err(fault) => {
            page.stop(unworked(&fault));
            0
        }
    }
}
