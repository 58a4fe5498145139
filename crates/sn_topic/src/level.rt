//! The levels of a topic, read from its octets.

ghost use Rattle.std.specs.Prelude.{◌≡◌, ◌<◌, ◌∷◌, [], ◌==◌, length, position, MatchOption};
ghost use Rattle.sn_topic.specs.Levels.{levels};
ghost use Rattle.sn_topic.specs.Levels as spec;

/// The most octets that a topic may have.
pub const MAX_TOPIC: usize = 256;

/// Whether an octet is `+` or `#`.
fn is_wildcard(octet: u8) -> bool
    ensures { result ≡ spec.is_wildcard octet }
{
    octet == b'+' || octet == b'#'
}

/// Whether `+` or `#` stands among the octets.
pub fn has_wildcard(octets: &[u8]) -> bool
    ensures { result ≡ spec.has_wildcard octets.now }
{
    octets.iter().any(|octet| is_wildcard(*octet))
}

/// Whether the first octet is `+` or `#`.
pub fn begins_with_wildcard(octets: &[u8]) -> bool
    ensures { result ≡ spec.begins_with_wildcard octets.now }
{
    match octets {
        [] => false,
        [first, ..] => is_wildcard(*first),
    }
}

/// Whether a level is `+` alone.
pub fn is_plus(level: &[u8]) -> bool
    ensures { result ≡ spec.is_plus level.now }
{
    level == b"+".as_slice()
}

/// Whether a level is `#` alone.
pub fn is_hash(level: &[u8]) -> bool
    ensures { result ≡ spec.is_hash level.now }
{
    level == b"#".as_slice()
}

/// Where the first slash stands.
fn slash_at(octets: &[u8]) -> Option<usize>
    ensures { result ≡ position (λ octet. octet == 47) octets.now }
{
    octets.iter().position(|octet| *octet == b'/')
}

/// The first level of a topic, and what stands after the slash that ends it.
pub fn first_level(octets: &[u8]) -> (&[u8], Option<&[u8]>)
    ensures { MatchOption result.1 (levels octets.now ≡ result.0.now ∷ [])
        (λ rest. (length rest.now < length octets.now)
        × (levels octets.now ≡ result.0.now ∷ levels rest.now)) }
{
    match slash_at(octets) {
        None => (octets, None),
        Some(end) => (&octets[..end], Some(&octets[end + 1..])),
    }
}

/// Whether a level without `#` stands there: no wildcard, or `+` alone.
fn asks_for_one(level: &[u8]) -> bool
    ensures { result ≡ spec.asks_for_one level.now }
{
    !has_wildcard(level) || is_plus(level)
}

/// Whether each wildcard stands alone in its level, and `#` in the last level only.
pub fn wildcards_stand_alone(octets: &[u8]) -> bool
    ensures { result ≡ spec.wildcards_stand_alone (levels octets.now) }
{
    let mut left = octets;
    loop {
        let (level, more) = first_level(left);
        let Some(rest) = more else {
            return asks_for_one(level) || is_hash(level);
        };
        if !asks_for_one(level) {
            return false;
        }
        left = rest;
    }
}
