//! Why octets are no prefix of a broker's topics.

ghost use Rattle.std.specs.Prelude.{◌≡◌};
ghost use Rattle.br_map.specs.declared.fault.PrefixFault.TheVariants as faults;

use sn_topic::octets::NoMemory;
use thiserror::Error;

/// Why octets are no prefix: the first cause in the order of the variants.
#[derive(Clone, Copy, Debug, PartialEq, Eq, Error)]
pub enum PrefixFault {
    #[error("a prefix of more than 1024 octets")]
    TooLong,
    #[error("a prefix that is no UTF-8 or has the octet 0")]
    Text,
    #[error("a wildcard in a prefix")]
    Wildcard,
    #[error("a prefix that begins with $")]
    Dollar,
    #[error("out of memory")]
    Memory,
}

impl From<NoMemory> for PrefixFault {
    ghost from_gives = { λ _ e. e ≡ faults.Memory };

    fn from(_e: NoMemory) -> PrefixFault {
        PrefixFault::Memory
    }
}
