//! To whom a delta goes on.

ghost use Rattle.std.specs.Prelude.{◌≡◌};
ghost use Rattle.gw_relay.specs.Going as spec;

/// Whether a delta that one gateway told goes on to another, which said with whom it is linked: not
/// back to where it came from, and not to a gateway that has a link with that one.
pub fn goes_on(giver: u8, other: u8, linked: &[u8]) -> bool
    ensures { result ≡ spec.goes_on giver other linked.now }
{
    giver != other && !linked.contains(&giver)
}

/// Whether a gateway may be linked, where these may: all, if none is named.
pub fn may_link(numbers: &[u8], number: u8) -> bool
    ensures { result ≡ spec.may_link numbers.now number }
{
    numbers.is_empty() || numbers.contains(&number)
}
