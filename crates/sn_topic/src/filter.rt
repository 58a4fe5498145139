//! Topic filters.

ghost use Rattle.std.specs.Prelude.{◌≡◌, ◌≢◌, ◌<◌, ◌↔◌, [], length, Err, IfOk, IfErr, IsErrOf, IsFalse};
ghost use Rattle.sn_topic.specs.Levels.{levels};
ghost use Rattle.sn_topic.specs.Levels as spec;
ghost use Rattle.sn_topic.specs.declared.level.TheConstants.{MAX_TOPIC};
ghost use Rattle.sn_topic.specs.Topics.{IsTopicSize, IsFilter};

use crate::fault::TopicFault;
use crate::level::{MAX_TOPIC, begins_with_wildcard, has_wildcard, wildcards_stand_alone};
use octets::{NoMemory, Octets};
use std::alloc::Global;
use std::marker::Model;

/// Which topics a client asks for: 1 to 256 octets, in which a wildcard stands alone in its level
/// and `#` in the last level only. Contracts see it as the list of its octets.
pub struct Filter {
    octets: Octets,
}

impl Drop for Filter {
    fn drop(self) {
        let Filter { octets } = self;
        drop(octets);
    }
}

impl Model for Filter {
    ghost use Rattle.std.specs.Prelude.{List, ℕ};
    ghost use Rattle.sn_topic.specs.Topics.{IsFilter};

    ghost Value = { List ℕ };

    ghost view = { λ filter. filter.octets };

    ghost invariant = { λ filter. IsFilter filter.octets };
}

impl Filter {
    /// The filter of these octets. The faults are tried in the order of the clauses.
    pub fn new(alloc: Global, octets: &[u8]) -> Result<Filter, TopicFault>
        ensures ok { IfOk result (λ filter. (filter ≡ octets.now) × IsFilter octets.now) }
        ensures empty { IsErrOf result TopicFault.Empty ↔ (octets.now ≡ []) }
        ensures too_long { IsErrOf result TopicFault.TooLong ↔ (MAX_TOPIC < length octets.now) }
        ensures wildcard { IsErrOf result TopicFault.Wildcard
            ↔ (IsTopicSize octets.now × IsFalse (spec.wildcards_stand_alone (levels octets.now))) }
        ensures memory { IsErrOf result TopicFault.Memory → IsFilter octets.now }
        ensures no_id { result ≢ Err TopicFault.Id }
    {
        if octets.is_empty() {
            return Err(TopicFault::Empty);
        }
        if octets.len() > MAX_TOPIC {
            return Err(TopicFault::TooLong);
        }
        if !wildcards_stand_alone(octets) {
            return Err(TopicFault::Wildcard);
        }
        let octets = Octets::from_slice(alloc, octets)?;
        Ok(Filter { octets })
    }

    /// The octets that the filter was made of.
    pub fn bytes(&self) -> &[u8]
        ensures octets { result.now ≡ self.now }
        ensures valid { IsFilter self.now }
    {
        self.octets.as_slice()
    }

    /// Whether a wildcard stands in it.
    pub fn has_wildcard(&self) -> bool
        ensures { result ≡ spec.has_wildcard self.now }
    {
        has_wildcard(self.octets.as_slice())
    }

    /// Whether its first octet is a wildcard.
    pub fn begins_with_wildcard(&self) -> bool
        ensures { result ≡ spec.begins_with_wildcard self.now }
    {
        begins_with_wildcard(self.octets.as_slice())
    }

    /// An equal filter.
    pub fn copied(&self, alloc: Global) -> Result<Filter, NoMemory>
        ensures { IfOk result (λ filter. filter ≡ self.now) }
    {
        let octets = self.octets.copied(alloc)?;
        Ok(Filter { octets })
    }

    /// The same, where want of memory is a fault of this crate.
    pub fn copy(&self, alloc: Global) -> Result<Filter, TopicFault>
        ensures ok { IfOk result (λ filter. filter ≡ self.now) }
        ensures err { IfErr result (λ fault. fault ≡ TopicFault.Memory) }
    {
        Ok(self.copied(alloc)?)
    }
}

impl PartialEq for Filter {
    ghost use Rattle.std.specs.Prelude.{nat_eq};
    ghost use Rattle.std.specs.Cmp.Lexicographic.{pointwise, nat_list_eq_equiv};
    ghost use Rattle.std.specs.Cmp.{partial_equiv_from_equiv};

    ghost eq = { pointwise nat_eq };

    ghost laws = { partial_equiv_from_equiv nat_list_eq_equiv };

    fn eq(&self, other: &Self) -> bool {
        self.octets == other.octets
    }
}

impl Eq for Filter {
    ghost use Rattle.std.specs.Cmp.Lexicographic.{nat_list_eq_equiv};

    ghost laws = { nat_list_eq_equiv };
}
