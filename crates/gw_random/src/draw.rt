//! Numbers that look random.

ghost use Rattle.std.specs.Prelude.{◌<◌};

/// A source of numbers that look random: from one seed it gives the same numbers.
#[derive(Clone, Copy)]
pub(crate) struct Draw {
    state: u64,
}

impl Draw {
    /// The source of this seed.
    pub(crate) fn new(seed: u64) -> Draw {
        Draw { state: seed }
    }

    /// The next number.
    pub(crate) fn number(&mut self) -> u64 {
        self.state = self.state.wrapping_add(0x9e37_79b9_7f4a_7c15);
        let first = self.state;
        let second = (first ^ (first >> 30)).wrapping_mul(0xbf58_476d_1ce4_e5b9);
        let third = (second ^ (second >> 27)).wrapping_mul(0x94d0_49bb_1331_11eb);
        third ^ (third >> 31)
    }

    /// The next number, below this one; 0 where no number is.
    pub(crate) fn below(&mut self, bound: u64) -> u64 {
        self.number().checked_rem(bound).unwrap_or(0)
    }

    /// The same, as an octet.
    pub(crate) fn octet_below(&mut self, bound: u8) -> u8
        ensures { 0 < bound → result < bound }
    {
        if bound == 0 {
            return 0;
        }
        (self.number() % u64::from(bound)) as u8
    }

    /// Whether something is to happen that happens once in so many times.
    pub(crate) fn is_once_in(&mut self, times: u64) -> bool {
        self.below(times) == 0
    }

    /// One of these, if there is one.
    pub(crate) fn one_of<'a, T>(&mut self, items: &'a [T]) -> Option<&'a T> {
        if items.is_empty() {
            return None;
        }
        items.get((self.number() % items.len() as u64) as usize)
    }
}
