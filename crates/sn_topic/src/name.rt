//! Topic names.

ghost use Rattle.std.specs.Prelude.{◌≡◌, ◌≢◌, ◌<◌, ◌↔◌, [], length, Err, IfOk, IfErr, IsErrOf, IsTrue};
ghost use Rattle.sn_topic.specs.Levels as spec;
ghost use Rattle.sn_topic.specs.declared.level.TheConstants.{MAX_TOPIC};
ghost use Rattle.sn_topic.specs.Topics.{IsTopicSize, IsName};

use crate::fault::TopicFault;
use crate::level::{MAX_TOPIC, has_wildcard};
use octets::{NoMemory, Octets};
use std::alloc::Global;
use std::marker::Model;

/// The name of a topic: 1 to 256 octets without a wildcard. Contracts see it as the list of its
/// octets.
#[derive(Debug)]
pub struct TopicName {
    octets: Octets,
}

impl Drop for TopicName {
    fn drop(self) {
        let TopicName { octets } = self;
        drop(octets);
    }
}

impl Model for TopicName {
    ghost use Rattle.std.specs.Prelude.{List, ℕ};
    ghost use Rattle.sn_topic.specs.Topics.{IsName};

    ghost Value = { List ℕ };

    ghost view = { λ name. name.octets };

    ghost invariant = { λ name. IsName name.octets };
}

impl TopicName {
    /// The topic name of these octets. The faults are tried in the order of the clauses.
    pub fn new(alloc: Global, octets: &[u8]) -> Result<TopicName, TopicFault>
        ensures ok { IfOk result (λ name. (name ≡ octets.now) × IsName octets.now) }
        ensures empty { IsErrOf result TopicFault.Empty ↔ (octets.now ≡ []) }
        ensures too_long { IsErrOf result TopicFault.TooLong ↔ (MAX_TOPIC < length octets.now) }
        ensures wildcard { IsErrOf result TopicFault.Wildcard
            ↔ (IsTopicSize octets.now × IsTrue (spec.has_wildcard octets.now)) }
        ensures memory { IsErrOf result TopicFault.Memory → IsName octets.now }
        ensures no_id { result ≢ Err TopicFault.Id }
    {
        if octets.is_empty() {
            return Err(TopicFault::Empty);
        }
        if octets.len() > MAX_TOPIC {
            return Err(TopicFault::TooLong);
        }
        if has_wildcard(octets) {
            return Err(TopicFault::Wildcard);
        }
        let octets = Octets::from_slice(alloc, octets)?;
        Ok(TopicName { octets })
    }

    /// The octets that the name was made of.
    pub fn bytes(&self) -> &[u8]
        ensures octets { result.now ≡ self.now }
        ensures valid { IsName self.now }
    {
        self.octets.as_slice()
    }

    /// An equal name.
    pub fn copied(&self, alloc: Global) -> Result<TopicName, NoMemory>
        ensures { IfOk result (λ name. name ≡ self.now) }
    {
        let octets = self.octets.copied(alloc)?;
        Ok(TopicName { octets })
    }

    /// The same, where want of memory is a fault of this crate.
    pub fn copy(&self, alloc: Global) -> Result<TopicName, TopicFault>
        ensures ok { IfOk result (λ name. name ≡ self.now) }
        ensures err { IfErr result (λ fault. fault ≡ TopicFault.Memory) }
    {
        Ok(self.copied(alloc)?)
    }
}

impl PartialEq for TopicName {
    ghost use Rattle.std.specs.Prelude.{nat_eq};
    ghost use Rattle.std.specs.Cmp.Lexicographic.{pointwise, nat_list_eq_equiv};
    ghost use Rattle.std.specs.Cmp.{partial_equiv_from_equiv};

    ghost eq = { pointwise nat_eq };

    ghost laws = { partial_equiv_from_equiv nat_list_eq_equiv };

    fn eq(&self, other: &Self) -> bool {
        self.octets == other.octets
    }
}

impl Eq for TopicName {
    ghost use Rattle.std.specs.Cmp.Lexicographic.{nat_list_eq_equiv};

    ghost laws = { nat_list_eq_equiv };
}
