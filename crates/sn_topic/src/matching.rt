//! Which names a filter asks for.

ghost use Rattle.std.specs.Prelude.{◌≡◌, ◌↔◌, IsTrue};
ghost use Rattle.sn_topic.specs.Levels.{levels};
ghost use Rattle.sn_topic.specs.Matching.{Matches, is_match};
ghost use Rattle.sn_topic.specs.Matching as spec;

use crate::filter::Filter;
use crate::level::{first_level, is_hash, is_plus};
use crate::name::TopicName;

/// Whether a filter asks for a topic. `+` stands for any one level and a `#` at the end for all
/// levels that are left, also for none, so `t/#` asks for `t`. A filter that begins with a wildcard
/// asks for no name that begins with `$`. The time is linear in both.
pub fn matches(filter: &Filter, name: &TopicName) -> bool
    ensures rule { IsTrue result ↔ Matches filter.now name.now }
    ensures value { result ≡ is_match filter.now name.now }
{
    if filter.begins_with_wildcard() && begins_with_dollar(name.bytes()) {
        return false;
    }
    levels_match(filter.bytes(), name.bytes())
}

/// Whether a topic begins with `$`.
fn begins_with_dollar(octets: &[u8]) -> bool
    ensures { result ≡ spec.begins_with_dollar octets.now }
{
    match octets {
        [] => false,
        [first, ..] => *first == b'$',
    }
}

/// Whether a level of a filter agrees with a level of a name.
fn level_agrees(asked: &[u8], given: &[u8]) -> bool
    ensures { result ≡ spec.level_agrees asked.now given.now }
{
    is_plus(asked) || asked == given
}

/// Whether the levels of a filter ask for those of a name.
fn levels_match(filter: &[u8], name: &[u8]) -> bool
    ensures { result ≡ spec.levels_match (levels filter.now) (levels name.now) }
{
    let mut filter_left = filter;
    let mut name_left = name;
    loop {
        let (asked, more_asked) = first_level(filter_left);
        let (given, more_given) = first_level(name_left);
        let Some(next_asked) = more_asked else {
            return is_hash(asked) || more_given.is_none() && level_agrees(asked, given);
        };
        if !level_agrees(asked, given) {
            return false;
        }
        let Some(next_given) = more_given else {
            return is_hash(next_asked);
        };
        filter_left = next_asked;
        name_left = next_given;
    }
}
