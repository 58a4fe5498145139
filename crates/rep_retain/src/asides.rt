//! What lies aside of a table of topics.

ghost use Rattle.std.specs.Prelude.{◌≡◌, OnOk, IfErr};
ghost use Rattle.rep_retain.specs.Asides.{topics_back, AreTopicsSaved};

use super::staged::TopicsStaged;
use super::table::Topics;
use rep_model::TakeFault;
use std::alloc::Global;

/// Puts a table of topics aside, unless it lies there or nothing is staged of it.
pub(crate) fn save_topics(
    alloc: Global,
    table: &Topics,
    aside: &mut Topics,
    has_topics: &mut bool,
    staged: &TopicsStaged,
) -> Result<(), TakeFault>
    ensures back { topics_back has_topics.new aside.new table.now
        ≡ topics_back has_topics.old aside.old table.now }
    ensures saved { OnOk result (AreTopicsSaved has_topics.new staged.now) }
    ensures err { IfErr result (λ fault. fault ≡ TakeFault.Memory) }
{
    if *has_topics {
        return Ok(());
    }
    if staged.is_nothing() {
        return Ok(());
    }
    let topics = table.copied(alloc)?;
    *aside = topics;
    *has_topics = true;
    Ok(())
}

/// Puts back a table of topics, if one lies aside.
pub(crate) fn put_topics_back(table: &mut Topics, aside: Topics, has_topics: bool)
    ensures { table.new ≡ topics_back has_topics aside table.old }
{
    if has_topics {
        *table = aside;
    } else {
        drop(aside);
    }
}
