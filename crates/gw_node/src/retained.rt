//! What a node retains of topics.

ghost use Rattle.std.specs.Prelude.{◌≡◌, ◌++◌, ◌∷◌, [], IfOk, OnOk};
ghost use Rattle.rep_model.specs.Topics.{all_retained};

use octets::NoMemory;
use rep_model::Replica;
use rep_ops::Retained;
use sn_topic::TopicName;
use std::alloc::Global;

/// What is retained of each topic of which something ever was.
pub(crate) fn retained_of<R: Replica>(
    alloc: Global,
    replica: &R,
) -> Result<Vec<(TopicName, Retained)>, NoMemory>
    ensures { IfOk result (λ all. all.items ≡ all_retained (R.kept replica.now)) }
{
    let mut all = Vec::new(alloc);
    let mut place = 0;
    while let Some((behind, topic, kept)) = replica.topic_at(place) {
        push(alloc, &mut all, topic, kept)?;
        place = behind;
    }
    Ok(all)
}

/// Puts a topic with what is retained of it after others.
fn push(
    alloc: Global,
    all: &mut Vec<(TopicName, Retained)>,
    topic: &TopicName,
    kept: &Retained,
) -> Result<(), NoMemory>
    ensures { OnOk result (all.new.items ≡ all.old.items ++ (topic.now, kept.now) ∷ []) }
{
    let topic = topic.copied(alloc)?;
    match kept.copied(alloc) {
        Ok(kept) => Ok(all.push((topic, kept))?),
        Err(fault) => {
            drop(topic);
            Err(fault)
        }
    }
}
