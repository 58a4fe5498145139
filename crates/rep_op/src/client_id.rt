//! Who a session is of.

ghost use Rattle.std.specs.Prelude.{◌≡◌, ℕ, ◌⊎◌, List, IfOk, IfErr, IsErrOf, ◌↔◌};
ghost use Rattle.rep_op.specs.ClientIds.{IsClientId};

use super::fault::OpsFault;
use octets::{MAX_CLIENT_ID, NoMemory, Octets};
use std::alloc::Global;
use std::cmp::Ordering;
use std::marker::Model;

/// The name of a client: 1 to 23 octets (MQTT-SN 1.2 section 5.3.1). Contracts see the list of its
/// octets.
#[derive(Debug)]
pub struct ClientId {
    octets: Octets,
}

impl Drop for ClientId {
    fn drop(self) {
        let ClientId { octets } = self;
        drop(octets);
    }
}

impl Model for ClientId {
    ghost Value = { List ℕ };

    ghost view = { λ id. id.octets };

    ghost invariant = { λ id. IsClientId id.octets };
}

impl ClientId {
    /// The client of this name. `Kind` for a name that has not 1 to 23 octets.
    pub fn new(alloc: Global, octets: &[u8]) -> Result<ClientId, OpsFault>
        ensures ok { IfOk result (λ id. (id ≡ octets.now) × IsClientId octets.now) }
        ensures kind { IsErrOf result OpsFault.Kind ↔ (¬ (IsClientId octets.now)) }
        ensures err { IfErr result (λ fault. (fault ≡ OpsFault.Kind) ⊎ (fault ≡ OpsFault.Memory)) }
    {
        if octets.is_empty() || octets.len() > MAX_CLIENT_ID {
            return Err(OpsFault::Kind);
        }
        Ok(ClientId {
            octets: Octets::from_slice(alloc, octets)?,
        })
    }

    /// The octets of the name.
    pub fn bytes(&self) -> &[u8]
        ensures octets { result.now ≡ self.now }
        ensures size { IsClientId self.now }
    {
        self.octets.as_slice()
    }

    /// An equal name.
    pub fn copied(&self, alloc: Global) -> Result<ClientId, NoMemory>
        ensures { IfOk result (λ made. made ≡ self.now) }
    {
        Ok(ClientId {
            octets: self.octets.copied(alloc)?,
        })
    }

    /// The same, where want of memory is a fault of this crate.
    pub fn copy(&self, alloc: Global) -> Result<ClientId, OpsFault>
        ensures ok { IfOk result (λ made. made ≡ self.now) }
        ensures err { IfErr result (λ fault. fault ≡ OpsFault.Memory) }
    {
        Ok(self.copied(alloc)?)
    }
}

impl PartialEq for ClientId {
    ghost use Rattle.std.specs.Prelude.{nat_eq};
    ghost use Rattle.std.specs.Cmp.Lexicographic.{pointwise, nat_list_eq_equiv};
    ghost use Rattle.std.specs.Cmp.{partial_equiv_from_equiv};

    ghost eq = { pointwise nat_eq };

    ghost laws = { partial_equiv_from_equiv nat_list_eq_equiv };

    fn eq(&self, other: &Self) -> bool {
        self.bytes() == other.bytes()
    }
}

impl Eq for ClientId {
    ghost use Rattle.std.specs.Cmp.Lexicographic.{nat_list_eq_equiv};

    ghost laws = { nat_list_eq_equiv };
}

impl PartialOrd for ClientId {
    ghost use Rattle.std.specs.Prelude.{Some};
    ghost use Rattle.std.specs.Ordering.{nat_cmp};
    ghost use Rattle.std.specs.Cmp.Lexicographic.{slice_cmp, texts_po};

    ghost partial_cmp = { λ a b. Some (slice_cmp nat_cmp a b) };

    ghost laws = { texts_po };

    fn partial_cmp(&self, other: &Self) -> Option<Ordering> {
        Some(self.cmp(other))
    }
}

impl Ord for ClientId {
    ghost use Rattle.std.specs.Prelude.{refl};
    ghost use Rattle.std.specs.Ordering.{nat_cmp};
    ghost use Rattle.std.specs.Cmp.Lexicographic.{slice_cmp, nat_list_cmp_total, texts_ties};

    ghost cmp = { slice_cmp nat_cmp };

    ghost total = { nat_list_cmp_total };

    ghost matches_partial_cmp = { λ a b. refl };

    ghost matches_eq = { texts_ties };

    fn cmp(&self, other: &Self) -> Ordering {
        self.bytes().cmp(&other.bytes())
    }
}
