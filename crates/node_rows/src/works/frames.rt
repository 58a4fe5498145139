//! The codec of frames at work.

use crate::calls::read_frame;
use crate::page::Page;
use crate::stop::Stop;
use crate::works::datagrams::stream;
use crate::works::numbers::checksum;
use sn_frame::{EncodeFault, Frame, FrameFault, encode};

/// Decodes and encodes the stream so often, and says how many datagrams that were, and what the
/// last round wrote.
pub(crate) fn run(page: &mut Page, rounds: u32) {
    let datagrams = stream(page);
    let mut out = Vec::new(page.alloc());
    let count = all(page, datagrams.as_slice(), &mut out, rounds);
    page.number("frames: ", count);
    page.length(" datagrams, ", out.len());
    page.checksum(" octets a round, checksum ", checksum(&out));
    page.end();
    drop(out);
    drop(datagrams);
}

/// All rounds: how many datagrams were decoded.
fn all(page: &mut Page, datagrams: &[Vec<u8>], out: &mut Vec<u8>, rounds: u32) -> u64 {
    let mut count = 0_u64;
    for _ in 0..rounds {
        out.clear();
        round(page, datagrams, out);
        count = count.wrapping_add(datagrams.len() as u64);
    }
    count
}

/// Decodes each datagram, and encodes what it says.
fn round(page: &mut Page, datagrams: &[Vec<u8>], out: &mut Vec<u8>) {
    for datagram in datagrams {
        decode_and_encode(page, datagram.as_slice(), out);
    }
}

/// Decodes a datagram, and encodes what it says.
fn decode_and_encode(page: &mut Page, datagram: &[u8], out: &mut Vec<u8>) {
    match read_frame(page.alloc(), datagram) {
        Ok(frame) => {
            write(page, &frame, out);
            drop(frame);
        }
        Err(FrameFault::Memory) => page.stop(Stop::Memory),
        Err(_) => page.stop(Stop::Work),
    }
}

/// Puts the octets of a frame after those that are there.
fn write(page: &mut Page, frame: &Frame, out: &mut Vec<u8>) {
    match encode(page.alloc(), frame, out) {
        Ok(()) => {}
        Err(EncodeFault::Memory) => page.stop(Stop::Memory),
        Err(_) => page.stop(Stop::Work),
    }
}
