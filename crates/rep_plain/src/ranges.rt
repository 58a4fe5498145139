//! Acknowledgements as ranges of sequence numbers. What a range costs does not depend on its
//! length.

ghost use Rattle.std.specs.Prelude.{◌≡◌, List, ◌∷◌, IfOk};
ghost use Rattle.std.specs.List.{filter_map, list_any};
ghost use Rattle.rep_model.specs.Limits.{joined};

use octets::NoMemory;
use rep_ops::{ClientId, Op};
use rep_shared::{above_gap, with_range};
use std::alloc::Global;

/// The acknowledgements of the messages first to last of an origin.
#[derive(Clone, Copy)]
pub(crate) struct Range {
    pub(crate) origin: u8,
    pub(crate) first: u64,
    pub(crate) last: u64,
}

impl Range {
    ghost use Rattle.rep_plain.specs.inner.Steps.{range_in, range_has, range_numbers};

    /// The client's acknowledgements in one operation.
    fn in_op(op: &Op, client: &ClientId) -> Option<Range>
        ensures { result ≡ range_in client.now op.now }
    {
        match op {
            Op::Ack {
                client: owner,
                origin,
                first,
                last,
            } if owner == client => Some(Range {
                origin: *origin,
                first: *first,
                last: *last,
            }),
            _ => None,
        }
    }

    /// Whether the range has the name of the put.
    fn covers(&self, seq: u64, origin: u8) -> bool
        ensures { result ≡ range_has (seq, origin) self.now }
    {
        origin == self.origin && self.first <= seq && seq <= self.last
    }

    /// The sequence numbers of the origin in the range.
    fn numbers(&self, origin: u8) -> Option<(u64, u64)>
        ensures { result ≡ range_numbers origin self.now }
    {
        if origin == self.origin && self.first <= self.last {
            Some((self.first, self.last))
        } else {
            None
        }
    }
}

ghost use Rattle.rep_shared.specs.Steps.{capped};
ghost use Rattle.rep_plain.specs.inner.Steps.{range_in, range_has, range_numbers, above_gaps};

/// The client's acknowledgements in the order in which they came.
pub(crate) fn ranges_of(
    alloc: Global,
    ops: &[Op],
    client: &ClientId,
) -> Result<Vec<Range>, NoMemory>
    ensures { IfOk result (λ ranges. ranges.items ≡ filter_map (range_in client.now) ops.now) }
{
    let ranges = ops
        .iter()
        .filter_map(|op| Range::in_op(op, client))
        .collect(alloc)?;
    Ok(ranges)
}

/// Whether a put of that name is acknowledged.
pub(crate) fn is_covered(ranges: &[Range], seq: u64, origin: u8) -> bool
    ensures { result ≡ list_any (range_has (seq, origin)) ranges.now }
{
    ranges.iter().any(|range| range.covers(seq, origin))
}

/// How many acknowledgements stand above a number of their origin that is not acknowledged.
pub(crate) fn exceptions(alloc: Global, ranges: &[Range]) -> Result<u64, NoMemory>
    ensures { IfOk result (λ count. count ≡ capped (above_gaps ranges.now 255)) }
{
    let mut count = 0u64;
    for below in 0..255u8 {
        let numbers = joined_numbers(alloc, ranges, below + 1)?;
        count = above_gap(numbers.as_slice()).saturating_add(count);
    }
    Ok(count)
}

/// The numbers of an origin as ranges in ascending order that do not touch.
fn joined_numbers(alloc: Global, ranges: &[Range], origin: u8) -> Result<Vec<(u64, u64)>, NoMemory>
    ensures { IfOk result
        (λ made. made.items ≡ joined (filter_map (range_numbers origin) ranges.now)) }
{
    let mut made = Vec::new(alloc);
    let mut i = ranges.len();
    while i > 0 {
        i -= 1;
        made = with_numbers(alloc, &ranges[i], origin, made)?;
    }
    Ok(made)
}

/// The joined numbers with those of one range more.
fn with_numbers(
    alloc: Global,
    range: &Range,
    origin: u8,
    made: Vec<(u64, u64)>,
) -> Result<Vec<(u64, u64)>, NoMemory>
    ensures { (S : List Range) → made.items ≡ joined (filter_map (range_numbers origin) S)
        → IfOk result (λ more. more.items
        ≡ joined (filter_map (range_numbers origin) (range.now ∷ S))) }
{
    match range.numbers(origin) {
        Some(numbers) => with_range(alloc, numbers, made.as_slice()),
        None => Ok(made),
    }
}
