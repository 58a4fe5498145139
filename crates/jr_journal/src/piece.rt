//! What stands in a slot after its header: records and a seal.

ghost use Rattle.std.specs.Prelude.{◌≡◌, ◌≤◌, ◌<◌, ◌+◌, false, length, take, drop, IfOk, IfNone, IfSome};
ghost use Rattle.std.specs.Int.{w32, from_be_bytes};
ghost use Rattle.jr_journal.specs.Records.{delta_piece, piece_body_at, record_at, piece_at, found_of, found};
ghost use Rattle.jr_journal.specs.inner.Records.{refusal};

use octets::{NoMemory, Sequence, read_u32};
use rep_ops::{Delta, MAX_OCTETS, OpsFault};
use std::alloc::Global;

/// The tag of a record.
pub(crate) const RECORD: u8 = 0x44;

/// The octet that is a seal.
pub const SEAL: u8 = 0x53;

/// What stands at a place where a record or the seal should.
#[derive(Drop)]
pub enum Piece {
    /// A record, whose delta has so many bytes.
    Whole { delta: Delta, size: usize },
    /// The seal.
    Seal,
    /// A record that the end cuts.
    Torn,
    /// Neither a record nor a seal.
    Bad,
}

/// The whole pieces of a slot.
#[derive(Drop)]
pub struct Found {
    /// The deltas of the records.
    pub deltas: Sequence<Delta>,
    /// The seal is among them.
    pub sealed: bool,
    /// How many bytes they take.
    pub whole: usize,
    /// What comes next is neither a record nor a seal that may stand there.
    pub bad: bool,
}

/// What a refused delta stands for; nothing where memory ran out.
fn refused(fault: OpsFault) -> Option<Piece>
    ensures { result ≡ refusal fault }
{
    match fault {
        OpsFault::Memory => None,
        OpsFault::Twice
        | OpsFault::Limit
        | OpsFault::Truncated
        | OpsFault::Version
        | OpsFault::Kind
        | OpsFault::Order
        | OpsFault::Trailing => Some(Piece::Bad),
    }
}

/// The delta of so many bytes, of which there are enough.
#[tactic(auto, using(crate::proofs::Pieces::refused_piece, crate::proofs::Pieces::whole_piece))]
fn read_delta(alloc: Global, size: usize, rest: &[u8]) -> Result<Piece, NoMemory>
    requires { size ≤ length rest.now }
    ensures { IfOk result (λ piece. piece ≡ delta_piece size rest.now) }
{
    match Delta::decode(alloc, &rest[..size]) {
        Ok(delta) => Ok(Piece::Whole { delta, size }),
        Err(fault) => match refused(fault) {
            Some(piece) => Ok(piece),
            None => Err(NoMemory),
        },
    }
}

/// So many bytes should be a delta.
fn read_body(alloc: Global, size: usize, rest: &[u8]) -> Result<Piece, NoMemory>
    ensures { IfOk result (λ piece. piece ≡ piece_body_at size rest.now) }
{
    if size > MAX_OCTETS {
        return Ok(Piece::Bad);
    }
    if rest.len() < size {
        return Ok(Piece::Torn);
    }
    read_delta(alloc, size, rest)
}

/// A length, and the bytes after it; none where the length is cut.
fn read_length(bytes: &[u8]) -> Option<(u32, &[u8])>
    ensures none { IfNone result (length bytes.now < 4) }
    ensures some { IfSome result (λ read. (4 ≤ length bytes.now)
        × (read.0 ≡ from_be_bytes w32 (take 4 bytes.now)) × (read.1.now ≡ drop 4 bytes.now)) }
{
    read_u32(bytes)
}

/// A record, after its tag.
fn read_record(alloc: Global, rest: &[u8]) -> Result<Piece, NoMemory>
    ensures { IfOk result (λ piece. piece ≡ record_at rest.now) }
{
    match read_length(rest) {
        None => Ok(Piece::Torn),
        Some((size, body)) => read_body(alloc, size as usize, body),
    }
}

/// The piece that begins with this byte.
#[tactic(auto, unfolding(crate::specs::Records::piece_at))]
fn read_piece(alloc: Global, tag: u8, rest: &[u8]) -> Result<Piece, NoMemory>
    ensures { IfOk result (λ piece. piece ≡ piece_at tag rest.now) }
{
    match tag {
        RECORD => read_record(alloc, rest),
        SEAL => Ok(Piece::Seal),
        _ => Ok(Piece::Bad),
    }
}

/// The bytes behind a record with a delta of so many bytes; given are those behind its tag.
fn behind_record(rest: &[u8], size: usize) -> &[u8]
    requires { 4 + size ≤ length rest.now }
    ensures { result.now ≡ drop (4 + size) rest.now }
{
    &rest[4 + size..]
}

/// The pieces so far, after which nothing more counts.
fn found_until(deltas: Sequence<Delta>, sealed: bool, whole: usize, bad: bool) -> Found
    ensures { result ≡ found_of deltas sealed whole bad }
{
    Found {
        deltas,
        sealed,
        whole,
        bad,
    }
}

/// The whole pieces of a slot, after its header.
pub(crate) fn read_pieces(alloc: Global, bytes: &[u8]) -> Result<Found, NoMemory>
    ensures ok { IfOk result (λ f. f ≡ found 0 false bytes.now) }
    ensures inside { IfOk result (λ f. f.whole ≤ length bytes.now) }
{
    let mut deltas = Sequence::empty(alloc);
    let mut sealed = false;
    let mut left = bytes;
    'reading: while let Some((tag, rest)) = left.split_first() {
        let whole = bytes.len() - left.len();
        match read_piece(alloc, *tag, rest)? {
            Piece::Whole { delta, size } => {
                deltas.push(delta)?;
                left = behind_record(rest, size);
            }
            Piece::Seal => {
                if sealed {
                    return Ok(found_until(deltas, sealed, whole, true));
                }
                sealed = true;
                left = rest;
            }
            Piece::Torn => return Ok(found_until(deltas, sealed, whole, false)),
            Piece::Bad => return Ok(found_until(deltas, sealed, whole, true)),
        }
    }
    Ok(found_until(deltas, sealed, bytes.len(), false))
}
