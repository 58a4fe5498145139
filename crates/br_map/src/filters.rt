//! Filters that have no topic in common (MQTT 3.1.1 section 4.7, MQTT-SN 1.2 section 6.5).

ghost use Rattle.std.specs.Prelude.{◌≡◌, ℕ, List, ◌++◌, IfOk, IsTrue};
ghost use Rattle.std.specs.Option.{option_copied};
ghost use Rattle.br_map.specs.Apart.{are_filters_apart};
ghost use Rattle.br_map.specs.Apart as spec;
ghost use Rattle.br_map.specs.inner.Ending as ending;
ghost use Rattle.sn_topic.specs.Levels.{levels};
ghost use Rattle.sn_topic.specs.Matching.{Matches};

use crate::level::{begins_with_dollar, begins_with_wildcard, first_level, is_hash, is_plus};
use crate::prefix::Prefix;
use sn_topic::octets::NoMemory;
use std::alloc::Global;

/// Whether two filters have no topic in common: true only if no topic matches both. It looks at
/// pairs of levels, and at `$`, which no wildcard at the begin of a filter asks for. The time is
/// linear in both.
pub fn apart(first: &[u8], second: &[u8]) -> bool
    ensures rule { IsTrue result → (topic : List ℕ) → Matches first.now topic
        → Matches second.now topic → ⊥ }
    ensures value { result ≡ are_filters_apart first.now second.now }
{
    dollar_apart(first, second) || dollar_apart(second, first) || !overlap(first, second)
}

/// Whether a filter, put below a prefix, has no topic in common with another one: true only if no
/// topic that the filter matches, below the prefix, matches the other one. A prefix that is neither
/// empty nor ends with a slash is never said to be apart.
pub fn apart_below(
    alloc: Global,
    prefix: &Prefix,
    filter: &[u8],
    other: &[u8],
) -> Result<bool, NoMemory>
    ensures rule { IfOk result (λ answer. IsTrue answer → (topic : List ℕ)
        → Matches filter.now topic → Matches other.now (prefix.now ++ topic) → ⊥) }
    ensures value { IfOk result (λ answer. answer ≡ spec.is_apart_below prefix.now filter.now
        other.now) }
{
    if !ends_a_level(prefix.bytes()) {
        return Ok(false);
    }
    let mut below = Vec::from_slice(alloc, prefix.bytes())?;
    below.extend_from_slice(filter)?;
    Ok(apart(&below, other))
}

/// Whether what follows begins a level: there is nothing, or a slash at the end.
fn ends_a_level(octets: &[u8]) -> bool
    ensures { result ≡ spec.ends_a_level octets.now }
{
    match octets {
        [] => true,
        [.., last] => *last == b'/',
    }
}

/// Whether the first begins with a wildcard and the second with `$`.
fn dollar_apart(first: &[u8], second: &[u8]) -> bool
    ensures { result ≡ spec.dollar_apart first.now second.now }
{
    begins_with_wildcard(first) && begins_with_dollar(second)
}

/// Whether two levels ask for one level in common.
fn levels_meet(first: &[u8], second: &[u8]) -> bool
    ensures { result ≡ spec.levels_meet first.now second.now }
{
    is_plus(first) || is_plus(second) || first == second
}

/// Whether the last level of a filter, and what the other filter has from there on, ask for levels
/// in common.
fn last_overlaps(last: &[u8], level: &[u8], more: Option<&[u8]>) -> bool
    ensures { result ≡ ending.last_overlaps last.now level.now (option_copied more.entry) }
{
    match more {
        None => is_hash(last) || is_hash(level) || levels_meet(last, level),
        Some(rest) => is_hash(last) || levels_meet(last, level) && is_hash(rest),
    }
}

/// Whether the levels of two filters ask for levels in common.
fn overlap(first: &[u8], second: &[u8]) -> bool
    ensures { result ≡ spec.overlap (levels first.now) (levels second.now) }
{
    let mut left = first;
    let mut right = second;
    loop {
        let (level, more) = first_level(left);
        let (other, more_other) = first_level(right);
        let Some(rest) = more else {
            return last_overlaps(level, other, more_other);
        };
        let Some(rest_other) = more_other else {
            return is_hash(other) || levels_meet(level, other) && is_hash(rest);
        };
        if !levels_meet(level, other) {
            return false;
        }
        left = rest;
        right = rest_other;
    }
}
