//! The laws of streams. Each function does nothing; its contract is a law, proved for all streams.

ghost use Rattle.std.specs.Prelude.{◌≡◌, ◌≢◌, ◌≤◌, ◌++◌, ℕ, List, [], length, Option, None, Err};
ghost use Rattle.rep_op.specs.declared.fault.OpsFault.TheVariants as faults;
ghost use Rattle.rep_ops.specs.Spelling.{max_octets};
ghost use Rattle.rep_digest.specs.Digests.{Digested};
ghost use Rattle.rep_digest.specs.WellMade.{IsDigest};
ghost use Rattle.rep_digest.specs.Spelling.{digest_spelling, IsDigestWithinLimit};
ghost use Rattle.rep_digest.specs.Reading.{digest_reading};
ghost use Rattle.gw_net.specs.declared.fault.LinkFault.{LinkFault};
ghost use Rattle.gw_net.specs.declared.message.LinkMessage.{LinkMessage};
ghost use Rattle.gw_net.specs.Messages.{message_spelling, IsLinkMessage};
ghost use Rattle.gw_net.specs.Streams.{IsRead};

/// A stream says one thing, however it is cut into pieces.
pub fn one_stream()
    // What a stream says and what a piece after its rest says is what both together say.
    ensures joined { (stream piece rest after : List ℕ) (messages more : List LinkMessage)
        (fault : Option LinkFault)
        → IsRead stream messages None rest → IsRead (rest ++ piece) more fault after
        → IsRead (stream ++ piece) (messages ++ more) fault after }
    // No stream says two things.
    ensures one { (stream rest other : List ℕ) (messages more : List LinkMessage)
        (fault cause : Option LinkFault)
        → IsRead stream messages fault rest → IsRead stream more cause other
        → (messages ≡ more) × (fault ≡ cause) × (rest ≡ other) }
{}

/// No spelling of a digest begins another.
pub fn no_digest_begins_another()
    // If two spellings begin the same octets, the digests are the same, and so is what comes after.
    ensures free { (d e : Digested) (x y : List ℕ) → IsDigest d → IsDigestWithinLimit d
        → IsDigest e → IsDigestWithinLimit e → digest_spelling d ++ x ≡ digest_spelling e ++ y
        → (d ≡ e) × (x ≡ y) }
    // A spelling that is cut off anywhere is refused as Truncated.
    ensures cut { (d : Digested) (front rest : List ℕ) → IsDigest d → IsDigestWithinLimit d
        → digest_spelling d ≡ front ++ rest → rest ≢ []
        → digest_reading front ≡ Err faults.Truncated }
    // A spelling with octets after it is refused as Trailing.
    ensures more { (d : Digested) (rest : List ℕ) → IsDigest d → rest ≢ []
        → length (digest_spelling d ++ rest) ≤ max_octets
        → digest_reading (digest_spelling d ++ rest) ≡ Err faults.Trailing }
{}

/// No link message begins another.
pub fn no_message_begins_another()
    // If two messages begin the same octets they are the same, and so is what comes after.
    ensures free { (m n : LinkMessage) (x y : List ℕ) → IsLinkMessage m → IsLinkMessage n
        → message_spelling m ++ x ≡ message_spelling n ++ y → (m ≡ n) × (x ≡ y) }
    // A stream that ends before its message does says nothing yet, and is no fault.
    ensures cut { (m : LinkMessage) (front rest : List ℕ) → IsLinkMessage m
        → message_spelling m ≡ front ++ rest → rest ≢ [] → IsRead front [] None front }
{}
