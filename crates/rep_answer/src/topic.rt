//! What a digest covers of topics.

ghost use Rattle.std.specs.Prelude.{◌≡◌, Some, None, MatchOption};
ghost use Rattle.sn_tables.specs.inner.Tables.{IsPlace};
ghost use Rattle.std.specs.Ordering.{is_lt};
ghost use Rattle.rep_op.specs.Orders.{topic_name_cmp, clock_of, clock_cmp};
ghost use Rattle.rep_digest.specs.WellMade.{TopicsAscend, AreTopics};
ghost use Rattle.rep_answer.specs.Answers.{topic_entry_of};
ghost use Rattle.rep_answer.specs.Answers as spec;

use rep_digest::RetainedEntry;
use rep_op::topic_order;
use rep_ops::Retained;
use sn_tables::sn_topic::TopicName;

/// Whether the entries cover what was retained of a topic: what they name of it is as late. The
/// time is logarithmic.
pub fn covers_retain(entries: &[RetainedEntry], topic: &TopicName, retained: &Retained) -> bool
    requires { AreTopics entries.now }
    ensures { result ≡ spec.is_as_late (topic_entry_of topic.now entries.now)
        (clock_of retained.now) }
{
    match find_entry(entries, topic) {
        None => false,
        Some(entry) => is_as_late(entry, retained),
    }
}

/// The entry of a topic.
fn find_entry<'a>(entries: &'a [RetainedEntry], topic: &TopicName) -> Option<&'a RetainedEntry>
    requires { AreTopics entries.now }
    ensures { MatchOption result (topic_entry_of topic.now entries.now ≡ None)
        (λ entry. topic_entry_of topic.now entries.now ≡ Some entry.now) }
{
    match place(entries, topic) {
        Ok(at) => Some(&entries[at]),
        Err(_) => None,
    }
}

/// Where the entry of a topic is, or where it would go.
fn place(entries: &[RetainedEntry], topic: &TopicName) -> Result<usize, usize>
    requires { TopicsAscend entries.now }
    ensures { IsPlace (λ entry. topic_name_cmp entry.topic topic.now) entries.now result }
{
    entries.binary_search_by(|entry| topic_order(&entry.topic, topic))
}

/// Whether what an entry names is as late as this, or later.
fn is_as_late(entry: &RetainedEntry, retained: &Retained) -> bool
    ensures { result ≡ spec.is_as_late (Some entry.now) (clock_of retained.now) }
{
    !is_before(entry, retained)
}

/// Whether what an entry names came before this.
fn is_before(entry: &RetainedEntry, retained: &Retained) -> bool
    ensures { result ≡ is_lt (clock_cmp (entry.now.clock, entry.now.gateway)
        (clock_of retained.now)) }
{
    entry.clock < retained.clock
        || (entry.clock == retained.clock && entry.gateway < retained.gateway)
}
