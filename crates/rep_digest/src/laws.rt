//! The law of the spelling of digests. Its function does nothing; its contract is a law, proved for
//! all digests.

ghost use Rattle.std.specs.Prelude.{◌≡◌, ℕ, List, Ok};
ghost use Rattle.rep_ops.specs.Reading.{AreOctets};
ghost use Rattle.rep_digest.specs.WellMade.{IsDigest};
ghost use Rattle.rep_digest.specs.Spelling.{digest_spelling, IsDigestWithinLimit};
ghost use Rattle.rep_digest.specs.Reading.{digest_reading};
ghost use Rattle.rep_digest.specs.Digests.{Digested};

/// The reading of octets and the spelling of digests are one another's inverse.
pub fn one_reading()
    // A digest is read off its spelling, so no octets spell two digests.
    ensures again { (d : Digested) → IsDigest d → IsDigestWithinLimit d
        → digest_reading (digest_spelling d) ≡ Ok d }
    // What is read off octets is spelled so.
    ensures spelled { (bytes : List ℕ) (d : Digested) → AreOctets bytes
        → digest_reading bytes ≡ Ok d
        → IsDigest d × IsDigestWithinLimit d × (bytes ≡ digest_spelling d) }
{}
