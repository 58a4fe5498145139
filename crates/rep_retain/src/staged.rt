//! What is staged of a table.

ghost use Rattle.std.specs.Prelude.{◌≡◌, ◌<◌, ◌∷◌, [], length, IsTrue, IfOk, IfSome};
ghost use Rattle.sn_tables.specs.Tables.{is_ascending};
ghost use Rattle.sn_tables.specs.inner.Tables.{IsFoundAt};
ghost use Rattle.rep_op.specs.declared.op.Op.TheVariants.{Retain as OfRetain};
ghost use Rattle.rep_retain.specs.Tables.{entry_cmp};
ghost use Rattle.rep_retain.specs.inner.Tables.{by_topic};
ghost use Rattle.rep_retain.specs.inner.Steps.{IsStagedOf};

use super::table::{Topics, entry_of, is_later, place};
use octets::NoMemory;
use rep_ops::{Op, Retained};
use sn_topic::TopicName;
use std::alloc::Global;

/// What is staged of a table.
#[derive(Drop)]
pub enum TopicsStaged {
    /// The table stays.
    Nothing,
    /// An entry takes the place of the one that is there.
    Entry(usize, (TopicName, Retained)),
    /// The table as it will be.
    Table(Topics),
}

impl TopicsStaged {
    ghost use Rattle.rep_retain.specs.Staging as staging;

    /// Whether nothing is staged.
    pub fn is_nothing(&self) -> bool
        ensures { result ≡ staging.is_nothing self.now }
    {
        match self {
            TopicsStaged::Nothing => true,
            TopicsStaged::Entry(_, _) | TopicsStaged::Table(_) => false,
        }
    }
}

/// What is retained of a topic, if operations are one alone, and that is of a topic.
fn lone(ops: &[Op]) -> Option<(&TopicName, &Retained)>
    ensures { IfSome result (λ found. ops.now ≡ OfRetain found.0.now found.1.now ∷ []) }
{
    let Some((first, rest)) = ops.split_first() else {
        return None;
    };
    if !rest.is_empty() {
        return None;
    }
    match first {
        Op::Session { .. } | Op::Put { .. } | Op::Ack { .. } => None,
        Op::Retain { topic, retained } => Some((topic, retained)),
    }
}

/// What is staged of what is retained of a topic that has this place: nothing, if what stands there
/// is as late.
fn staged_at(
    alloc: Global,
    entries: &[(TopicName, Retained)],
    at: usize,
    topic: &TopicName,
    kept: &Retained,
) -> Result<Option<TopicsStaged>, NoMemory>
    requires bound { at < length entries.now }
    requires place { IsFoundAt (by_topic topic.now) entries.now at }
    ensures { IfOk result (λ found. IfSome found (λ staged.
        IsStagedOf entries.now (OfRetain topic.now kept.now ∷ []) staged)) }
{
    if !is_later(&entries[at].1, kept) {
        return Ok(Some(TopicsStaged::Nothing));
    }
    let entry = entry_of(alloc, topic, kept)?;
    Ok(Some(TopicsStaged::Entry(at, entry)))
}

/// What is staged of operations, if they are one alone, of a topic that has a place.
pub(crate) fn alone(
    alloc: Global,
    entries: &[(TopicName, Retained)],
    ops: &[Op],
) -> Result<Option<TopicsStaged>, NoMemory>
    requires { IsTrue (is_ascending entry_cmp entries.now) }
    ensures { IfOk result (λ found. IfSome found (λ staged.
        IsStagedOf entries.now ops.now staged)) }
{
    let Some((topic, kept)) = lone(ops) else {
        return Ok(None);
    };
    match place(entries, topic) {
        Ok(at) => staged_at(alloc, entries, at, topic, kept),
        Err(_) => Ok(None),
    }
}
