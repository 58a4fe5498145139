//! How much is said at once, and kept.

ghost use Rattle.std.specs.Prelude.{◌≡◌};
ghost use Rattle.gw_relay.specs.Sizes as spec;

/// How many octets a piece of an answer has at most, if it has more than one operation.
pub const PIECE: usize = 65_536;

/// How many octets a shift's history may keep of datagrams, of answers, of digests and of what
/// other gateways told, before the shift is to end. Whoever sends large datagrams, and a peer that
/// asks for the same again and again, take no more memory.
pub const MOST_KEPT: u64 = 67_108_864;

/// Whether operations, so many, that are spelled in so many octets make one piece of an answer.
pub fn fits(octets: usize, count: usize) -> bool
    ensures { result ≡ spec.fits octets count }
{
    octets <= PIECE || count <= 1
}

/// Whether a shift whose history keeps so many octets is to end.
pub fn is_much(octets: u64) -> bool
    ensures { result ≡ spec.is_much octets }
{
    octets > MOST_KEPT
}
