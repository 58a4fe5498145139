//! Numbers of two, four and eight octets, the most significant first.

ghost use Rattle.std.specs.Prelude.{◌≡◌, ◌<◌, ◌++◌, length, MatchOption, OnOk, OnErr};
ghost use Rattle.byteorder.specs.Endian.{big_bytes};

use byteorder::{BigEndian, ByteOrder};
use std::alloc::AllocError;

/// Appends a number as two octets.
pub fn append_u16(out: &mut Vec<u8>, n: u16) -> Result<(), AllocError>
    ensures ok { OnOk result (out.new.items ≡ out.old.items ++ big_bytes 2 n) }
    ensures err { OnErr result (out.new.items ≡ out.old.items) }
{
    let mut octets = [0; 2];
    BigEndian::write_u16(&mut octets, n);
    out.extend_from_slice(&octets)
}

/// Appends a number as four octets.
pub fn append_u32(out: &mut Vec<u8>, n: u32) -> Result<(), AllocError>
    ensures ok { OnOk result (out.new.items ≡ out.old.items ++ big_bytes 4 n) }
    ensures err { OnErr result (out.new.items ≡ out.old.items) }
{
    let mut octets = [0; 4];
    BigEndian::write_u32(&mut octets, n);
    out.extend_from_slice(&octets)
}

/// Appends a number as eight octets.
pub fn append_u64(out: &mut Vec<u8>, n: u64) -> Result<(), AllocError>
    ensures ok { OnOk result (out.new.items ≡ out.old.items ++ big_bytes 8 n) }
    ensures err { OnErr result (out.new.items ≡ out.old.items) }
{
    let mut octets = [0; 8];
    BigEndian::write_u64(&mut octets, n);
    out.extend_from_slice(&octets)
}

/// The number in the first two octets, and the octets after it; nothing where there are fewer.
pub fn read_u16(octets: &[u8]) -> Option<(u16, &[u8])>
    ensures { MatchOption result (length octets.now < 2) (λ read. octets.now ≡ big_bytes 2 read.0 ++
        read.1.now) }
{
    if octets.len() < 2 {
        return None;
    }
    let (number, rest) = octets.split_at(2);
    Some((BigEndian::read_u16(number), rest))
}

/// The number in the first four octets, and the octets after it; nothing where there are fewer.
pub fn read_u32(octets: &[u8]) -> Option<(u32, &[u8])>
    ensures { MatchOption result (length octets.now < 4) (λ read. octets.now ≡ big_bytes 4 read.0 ++
        read.1.now) }
{
    if octets.len() < 4 {
        return None;
    }
    let (number, rest) = octets.split_at(4);
    Some((BigEndian::read_u32(number), rest))
}

/// The number in the first eight octets, and the octets after it; nothing where there are fewer.
pub fn read_u64(octets: &[u8]) -> Option<(u64, &[u8])>
    ensures { MatchOption result (length octets.now < 8) (λ read. octets.now ≡ big_bytes 8 read.0 ++
        read.1.now) }
{
    if octets.len() < 8 {
        return None;
    }
    let (number, rest) = octets.split_at(8);
    Some((BigEndian::read_u64(number), rest))
}
