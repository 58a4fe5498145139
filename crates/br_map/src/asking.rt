//! Which of a broker's topics a filter asks for (MQTT 3.1.1 section 4.7).

ghost use Rattle.std.specs.Prelude.{◌≡◌, ◌↔◌, IsTrue};
ghost use Rattle.sn_topic.specs.Levels.{levels};
ghost use Rattle.sn_topic.specs.Matching.{Matches, is_match};
ghost use Rattle.sn_topic.specs.Matching as spec;

use crate::level::{begins_with_dollar, begins_with_wildcard, first_level, is_hash, is_plus};

/// Whether a filter asks for a topic; both may have any number of octets. `+` stands for any one
/// level and a `#` at the end for all levels that are left, also for none. A filter that begins
/// with a wildcard asks for no topic that begins with `$`. The time is linear in both.
pub fn asks_for(filter: &[u8], topic: &[u8]) -> bool
    ensures rule { IsTrue result ↔ Matches filter.now topic.now }
    ensures value { result ≡ is_match filter.now topic.now }
{
    if begins_with_wildcard(filter) && begins_with_dollar(topic) {
        return false;
    }
    levels_match(filter, topic)
}

/// Whether a level of a filter agrees with a level of a topic.
fn level_agrees(asked: &[u8], given: &[u8]) -> bool
    ensures { result ≡ spec.level_agrees asked.now given.now }
{
    is_plus(asked) || asked == given
}

/// Whether the levels of a filter ask for those of a topic.
fn levels_match(filter: &[u8], topic: &[u8]) -> bool
    ensures { result ≡ spec.levels_match (levels filter.now) (levels topic.now) }
{
    let mut filter_left = filter;
    let mut topic_left = topic;
    loop {
        let (asked, more_asked) = first_level(filter_left);
        let (given, more_given) = first_level(topic_left);
        let Some(next_asked) = more_asked else {
            return is_hash(asked) || more_given.is_none() && level_agrees(asked, given);
        };
        if !level_agrees(asked, given) {
            return false;
        }
        let Some(next_given) = more_given else {
            return is_hash(next_asked);
        };
        filter_left = next_asked;
        topic_left = next_given;
    }
}
