//! A digest.

ghost use Rattle.std.specs.Prelude.{◌≡◌, ◌⊎◌, ◌++◌, Ok, Err, IfOk, IfErr, OnOk, OnErr};
ghost use Rattle.rep_read.specs.Reading.{ReadsAs};
ghost use Rattle.rep_digest.specs.WellMade.{IsDigest};
ghost use Rattle.rep_digest.specs.Spelling.{digest_spelling, IsDigestWithinLimit};
ghost use Rattle.rep_digest.specs.Reading.{digest_reading};
ghost use Rattle.rep_digest.specs.Digests.{Digested};

use super::entry::{ClientEntry, RetainedEntry};
use super::read::read_digest;
use super::write::write_digest;
use octets::NoMemory;
use rep_ops::OpsFault;
use std::alloc::Global;
use std::marker::Model;

/// What a gateway has taken: an entry for each client and one for each topic, in ascending order.
/// It is spelled in at most 8,388,608 octets. Contracts see the lists of its entries.
pub struct Digest {
    pub(crate) clients: Vec<ClientEntry>,
    pub(crate) topics: Vec<RetainedEntry>,
}

impl Drop for Digest {
    fn drop(self) {
        let Digest { clients, topics } = self;
        drop(clients);
        drop(topics);
    }
}

impl Model for Digest {
    ghost use Rattle.rep_digest.specs.WellMade.{IsDigest};
    ghost use Rattle.rep_digest.specs.Spelling.{IsDigestWithinLimit};
    ghost use Rattle.rep_digest.specs.Digests.{Digested, digested};

    ghost Value = { Digested };

    ghost view = { λ d. digested d.clients.items d.topics.items };

    ghost invariant = { λ d. IsDigest (digested d.clients.items d.topics.items)
        × IsDigestWithinLimit (digested d.clients.items d.topics.items) };
}

impl Digest {
    /// The entries of clients, in ascending order.
    pub fn clients(&self) -> &[ClientEntry]
        ensures entries { result.now ≡ self.now.clients }
        ensures digest { IsDigest self.now }
        ensures size { IsDigestWithinLimit self.now }
    {
        self.clients.as_slice()
    }

    /// The entries of topics, in ascending order.
    pub fn topics(&self) -> &[RetainedEntry]
        ensures entries { result.now ≡ self.now.topics }
        ensures digest { IsDigest self.now }
        ensures size { IsDigestWithinLimit self.now }
    {
        self.topics.as_slice()
    }

    /// Appends the one spelling of the digest. On an error the vector is as it was.
    pub fn append_to(&self, out: &mut Vec<u8>) -> Result<(), NoMemory>
        ensures ok { OnOk result (out.new.items ≡ out.old.items ++ digest_spelling self.now) }
        ensures err { OnErr result (out.new.items ≡ out.old.items) }
    {
        let start = out.len();
        match write_digest(out, self.clients(), self.topics()) {
            Ok(()) => Ok(()),
            Err(fault) => {
                out.truncate(start);
                Err(fault)
            }
        }
    }

    /// The same, where want of memory is a fault of operations.
    pub fn encode(&self, _alloc: Global, out: &mut Vec<u8>) -> Result<(), OpsFault>
        ensures ok { OnOk result (out.new.items ≡ out.old.items ++ digest_spelling self.now) }
        ensures err { OnErr result (out.new.items ≡ out.old.items) }
        ensures memory { IfErr result (λ fault. fault ≡ OpsFault.Memory) }
    {
        Ok(self.append_to(out)?)
    }

    /// The digest that octets spell.
    ///
    /// `Limit` for more than 8,388,608 octets; else the first of these from the left: `Version` for
    /// a version other than 1 and 2, `Truncated` where the octets end, `Kind` for a value out of
    /// range (a length as soon as it is read, any other value when it is whole), `Order` where
    /// clients, origins, ranges or topics are out of order, looked at when an entry is whole,
    /// `Version` again for version 2 without a topic, and last `Trailing` for octets after the
    /// digest.
    pub fn decode(alloc: Global, bytes: &[u8]) -> Result<Digest, OpsFault>
        // What is read is spelled so.
        ensures ok { IfOk result (λ d. bytes.now ≡ digest_spelling d) }
        // What is spelled so is read, unless memory runs out.
        ensures only { (d : Digested) → IsDigest d → IsDigestWithinLimit d
            → bytes.now ≡ digest_spelling d → (result ≡ Ok d) ⊎ (result ≡ Err OpsFault.Memory) }
        // Which fault it is.
        ensures exact { ReadsAs (λ d. d) result (digest_reading bytes.now) }
    {
        let (clients, topics) = read_digest(alloc, bytes)?;
        Ok(Digest { clients, topics })
    }
}
