//! What a replica retains of topics, as entries of a digest.

ghost use Rattle.std.specs.Prelude.{◌≡◌, ◌++◌, ◌∷◌, [], IfOk, OnOk};
ghost use Rattle.rep_digest.specs.Digests.{topic_entries};
ghost use Rattle.rep_digest.specs.inner.Steps.{entry_for};

use super::entry::RetainedEntry;
use octets::NoMemory;
use rep_model::Replica;
use rep_ops::Retained;
use sn_topic::TopicName;
use std::alloc::Global;

/// The entries of the topics of a replica.
pub fn topics_of<R: Replica>(alloc: Global, replica: &R) -> Result<Vec<RetainedEntry>, NoMemory>
    ensures { IfOk result (λ entries. entries.items ≡ topic_entries (R.kept replica.now)) }
{
    let mut entries = Vec::new(alloc);
    let mut place = 0;
    while let Some((behind, topic, kept)) = replica.topic_at(place) {
        push_entry(alloc, &mut entries, topic, kept)?;
        place = behind;
    }
    Ok(entries)
}

/// Puts the entry of a topic after others.
fn push_entry(
    alloc: Global,
    entries: &mut Vec<RetainedEntry>,
    topic: &TopicName,
    kept: &Retained,
) -> Result<(), NoMemory>
    ensures { OnOk result (entries.new.items
        ≡ entries.old.items ++ entry_for (topic.now, kept.now) ∷ []) }
{
    entries.push(RetainedEntry {
        topic: topic.copied(alloc)?,
        clock: kept.clock,
        gateway: kept.gateway,
    })?;
    Ok(())
}
