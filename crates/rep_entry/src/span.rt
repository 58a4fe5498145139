//! Sequence numbers that reach from one to another, and where the messages that have them stand
//! among messages in order.

ghost use Rattle.std.specs.Prelude.{◌≡◌, ◌+◌, ◌≤◌, false, IsTrue, ℕ, List, length, take, drop};
ghost use Rattle.rep_log.specs.Mail.{Range, NoneCovered, Rising};
ghost use Rattle.rep_entry.specs.Spans.{AreFreeOutside};

use super::searching::{count_below, count_up_to};
use rep_ops::Put;

/// The sequence numbers from the first to the last; none where the last is below the first.
#[derive(Clone, Copy)]
pub struct Span {
    pub(crate) first: u64,
    pub(crate) last: u64,
}

impl Span {
    ghost use Rattle.rep_entry.specs.Spans.{lies_in};
    ghost use Rattle.rep_entry.specs.inner.Mail as spec;

    /// No number.
    pub(crate) fn none() -> Span
        ensures { (number : ℕ) → lies_in result number ≡ false }
    {
        Span {
            first: u64::MAX,
            last: 0,
        }
    }

    /// As far as both reach, this and the numbers from first to last.
    pub(crate) fn widened(self, first: u64, last: u64) -> Span
        ensures { result ≡ spec.widened self first last }
    {
        Span {
            first: self.first.min(first),
            last: self.last.max(last),
        }
    }

    /// Whether it has no number.
    fn is_empty(self) -> bool
        ensures { IsTrue result → (number : ℕ) → lies_in self number ≡ false }
    {
        self.last < self.first
    }
}

/// Where those of the span stand among messages in order, and how many they are. The time is
/// logarithmic.
pub(crate) fn between(puts: &[Put], span: Span) -> (usize, usize)
    ensures bound { result.0 + result.1 ≤ length puts.now }
    ensures front { (ranges : List Range) → Rising puts.now
        → AreFreeOutside span ranges puts.now
        → NoneCovered ranges (take result.0 puts.now) }
    ensures back { (ranges : List Range) → Rising puts.now
        → AreFreeOutside span ranges puts.now
        → NoneCovered ranges (drop result.1 (drop result.0 puts.now)) }
{
    if span.is_empty() {
        return (puts.len(), 0);
    }
    let from = count_below(puts, span.first);
    let count = count_up_to(puts.split_at(from).1, span.last);
    (from, count)
}
