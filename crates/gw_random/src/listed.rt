//! Which deltas there are, and which gateways have them.

use super::draw::Draw;
use octets::NoMemory;
use std::alloc::Global;

/// Which gateways have each delta of the list: the first gateway is the lowest bit.
#[derive(Drop)]
pub(crate) struct Listed {
    holders: Vec<u8>,
}

/// The bit of a gateway.
fn bit_of(gateway: u8) -> u8 {
    1u8.checked_shl(u32::from(gateway.saturating_sub(1)))
        .unwrap_or(128)
}

impl Listed {
    /// There is no delta.
    pub(crate) fn empty(alloc: Global) -> Listed {
        Listed {
            holders: Vec::new(alloc),
        }
    }

    /// One more delta, which this gateway has.
    pub(crate) fn add(&mut self, gateway: u8) -> Result<(), NoMemory> {
        self.holders.push(bit_of(gateway))?;
        Ok(())
    }

    /// The gateway has not the delta of this number.
    pub(crate) fn forget(&mut self, gateway: u8, number: u64) {
        let Ok(index) = usize::try_from(number.saturating_sub(1)) else {
            return;
        };
        if let Some(holders) = self.holders.get_mut(index) {
            *holders &= !bit_of(gateway);
        }
    }

    /// The number of a delta that the gateway is to take, if there is one: mostly one that it has
    /// not, and sometimes any.
    pub(crate) fn choose(&mut self, draw: &mut Draw, gateway: u8) -> Option<u64> {
        let bit = bit_of(gateway);
        let bits = if draw.is_once_in(10) { 0 } else { bit };
        let open = self.count_open(bits);
        if open == 0 {
            return None;
        }
        match self.open_after(bits, draw.below(open)) {
            Some(index) => Some(self.give(index, bit)),
            None => None,
        }
    }

    /// How many deltas there are that no gateway of these bits has.
    fn count_open(&self, bits: u8) -> u64 {
        let mut count = 0u64;
        for holders in self.holders.as_slice() {
            if *holders & bits == 0 {
                count = count.saturating_add(1);
            }
        }
        count
    }

    /// The index of one of these deltas, the one after so many others of them.
    fn open_after(&self, bits: u8, others: u64) -> Option<usize> {
        let mut left = others;
        for (index, holders) in self.holders.as_slice().iter().enumerate() {
            if *holders & bits == 0 {
                if left == 0 {
                    return Some(index);
                }
                left = left.saturating_sub(1);
            }
        }
        None
    }

    /// The gateway of this bit has the delta of this index. The number of the delta.
    fn give(&mut self, index: usize, bit: u8) -> u64 {
        if let Some(holders) = self.holders.get_mut(index) {
            *holders |= bit;
        }
        (index as u64).saturating_add(1)
    }
}
