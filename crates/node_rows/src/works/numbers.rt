//! Numbers to make data of.

use crate::page::Page;

/// A sequence of numbers that is the same in each run.
#[derive(Drop)]
pub(crate) struct Numbers {
    state: u32,
}

impl Numbers {
    /// The sequence from its start.
    pub(crate) fn new() -> Numbers {
        Numbers { state: 1 }
    }

    /// The next number: the high half of a linear congruential generator's state.
    pub(crate) fn next(&mut self) -> u16 {
        self.state = self
            .state
            .wrapping_mul(1_664_525)
            .wrapping_add(1_013_904_223);
        (self.state / 65_536) as u16
    }

    /// The next octet.
    pub(crate) fn octet(&mut self) -> u8 {
        (self.next() % 256) as u8
    }
}

/// So many octets of the sequence, each of them changed where the mask has a bit.
pub(crate) fn body(page: &mut Page, numbers: &mut Numbers, count: usize, mask: u8) -> Vec<u8> {
    let mut octets = Vec::new(page.alloc());
    for _ in 0..count {
        page.add(&mut octets, &[numbers.octet() ^ mask]);
    }
    octets
}

/// The FNV-1a checksum of octets.
pub(crate) fn checksum(octets: &[u8]) -> u64 {
    let mut sum = 0xcbf2_9ce4_8422_2325_u64;
    for octet in octets {
        sum = (sum ^ u64::from(*octet)).wrapping_mul(0x0100_0000_01b3);
    }
    sum
}
