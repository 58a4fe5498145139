//! What is published: a message of limited size.

ghost use Rattle.std.specs.Prelude.{◌≡◌, ◌==◌, ◌≤◌, [], length, true, false, IfOk, MatchOption};
ghost use Rattle.sn_session.specs.declared.message.TheConstants.{MAX_MESSAGE};
ghost use Rattle.sn_session.specs.Messages.{is_too_long};

use octets::{NoMemory, Octets};
use std::alloc::Global;
use std::marker::Model;

/// The most octets of a message.
pub const MAX_MESSAGE: usize = 4096;

/// What a message says: at most 4,096 octets, which copies share. Contracts see the list of them.
pub struct Message {
    octets: Octets,
}

impl Drop for Message {
    fn drop(self) {
        let Message { octets } = self;
        drop(octets);
    }
}

impl Model for Message {
    ghost use Rattle.std.specs.Prelude.{List, ℕ, ◌≤◌, length};
    ghost use Rattle.sn_session.specs.declared.message.TheConstants.{MAX_MESSAGE};

    ghost Value = { List ℕ };

    ghost view = { λ m. m.octets };

    ghost invariant = { λ m. length m.octets ≤ MAX_MESSAGE };
}

impl Message {
    /// The message of these octets; nothing where they are more than 4,096.
    pub fn new(octets: Octets) -> Option<Message>
        ensures { MatchOption result (is_too_long octets ≡ true)
            (λ made. (made ≡ octets) × (is_too_long octets ≡ false)) }
    {
        if octets.len() > MAX_MESSAGE {
            return None;
        }
        Some(Message { octets })
    }

    /// The message that says nothing.
    pub fn empty(alloc: Global) -> Result<Message, NoMemory>
        ensures { IfOk result (λ made. made ≡ []) }
    {
        let octets = Octets::new(Vec::new(alloc))?;
        Ok(Message { octets })
    }

    /// Its octets.
    pub fn as_slice(&self) -> &[u8]
        ensures { result.now ≡ self.now }
    {
        self.octets.as_slice()
    }

    /// Its octets, as an octet string that shares them.
    pub fn to_octets(&self, alloc: Global) -> Result<Octets, NoMemory>
        ensures { IfOk result (λ octets. octets ≡ self.now) }
    {
        self.octets.copied(alloc)
    }

    /// How many octets there are.
    pub fn len(&self) -> usize
        ensures length { result ≡ length self.now }
        ensures limit { result ≤ MAX_MESSAGE }
    {
        self.octets.len()
    }

    /// Whether there is no octet.
    pub fn is_empty(&self) -> bool
        ensures { result ≡ (length self.now == 0) }
    {
        self.octets.is_empty()
    }

    /// An equal message, which shares the octets.
    pub fn copied(&self, alloc: Global) -> Result<Message, NoMemory>
        ensures { IfOk result (λ made. made ≡ self.now) }
    {
        let octets = self.octets.copied(alloc)?;
        Ok(Message { octets })
    }
}

impl PartialEq for Message {
    ghost use Rattle.std.specs.Prelude.{nat_eq};
    ghost use Rattle.std.specs.Cmp.Lexicographic.{pointwise, nat_list_eq_equiv};
    ghost use Rattle.std.specs.Cmp.{partial_equiv_from_equiv};

    ghost eq = { pointwise nat_eq };

    ghost laws = { partial_equiv_from_equiv nat_list_eq_equiv };

    fn eq(&self, other: &Self) -> bool {
        self.as_slice() == other.as_slice()
    }
}

impl Eq for Message {
    ghost use Rattle.std.specs.Cmp.Lexicographic.{nat_list_eq_equiv};

    ghost laws = { nat_list_eq_equiv };
}
