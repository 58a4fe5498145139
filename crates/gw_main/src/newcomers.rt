//! How many clients come in for the first time within a minute.

ghost use Rattle.std.specs.Prelude.{◌≡◌};
ghost use Rattle.gw_main.specs.Newcomers as spec;

/// How many seconds newcomers are counted together.
pub const NEWCOMERS_SECONDS: u64 = 60;

/// Since which second newcomers are counted, and how many came in since then, as it is in a second:
/// they are counted anew where a minute is over.
pub fn counted_in(counted: (u64, u16), second: u64) -> (u64, u16)
    ensures { result ≡ spec.counted_in counted second }
{
    if second.saturating_sub(counted.0) >= NEWCOMERS_SECONDS {
        return (second, 0);
    }
    counted
}

/// Whether one more newcomer comes in, after so many of at most so many.
pub fn may_come(count: u16, most: u16) -> bool
    ensures { result ≡ spec.may_come count most }
{
    count < most
}
