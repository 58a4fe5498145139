//! The levels of a topic, read from its octets.

ghost use Rattle.std.specs.Prelude.{◌≡◌, ◌<◌, ◌∷◌, [], ◌==◌, length, position, MatchOption};
ghost use Rattle.sn_topic.specs.Levels.{levels};
ghost use Rattle.sn_topic.specs.Levels as spec;
ghost use Rattle.sn_topic.specs.Matching as matching;

/// Whether a level is `+` alone.
pub(crate) fn is_plus(level: &[u8]) -> bool
    ensures { result ≡ spec.is_plus level.now }
{
    level == b"+".as_slice()
}

/// Whether a level is `#` alone.
pub(crate) fn is_hash(level: &[u8]) -> bool
    ensures { result ≡ spec.is_hash level.now }
{
    level == b"#".as_slice()
}

/// Whether the first octet is `+` or `#`.
pub(crate) fn begins_with_wildcard(octets: &[u8]) -> bool
    ensures { result ≡ spec.begins_with_wildcard octets.now }
{
    match octets {
        [] => false,
        [first, ..] => *first == b'+' || *first == b'#',
    }
}

/// Whether the first octet is `$`.
pub(crate) fn begins_with_dollar(octets: &[u8]) -> bool
    ensures { result ≡ matching.begins_with_dollar octets.now }
{
    match octets {
        [] => false,
        [first, ..] => *first == b'$',
    }
}

/// Where the first slash stands.
fn slash_at(octets: &[u8]) -> Option<usize>
    ensures { result ≡ position (λ octet. octet == 47) octets.now }
{
    octets.iter().position(|octet| *octet == b'/')
}

/// The first level of a topic, and what stands after the slash that ends it.
pub(crate) fn first_level(octets: &[u8]) -> (&[u8], Option<&[u8]>)
    ensures { MatchOption result.1 (levels octets.now ≡ result.0.now ∷ [])
        (λ rest. (length rest.now < length octets.now)
        × (levels octets.now ≡ result.0.now ∷ levels rest.now)) }
{
    match slash_at(octets) {
        None => (octets, None),
        Some(end) => (&octets[..end], Some(&octets[end + 1..])),
    }
}
