//! Addresses as `a.b.c.d:port`.

ghost use Rattle.std.specs.Prelude.{◌≡◌, ◌==◌, ◌<◌, length, position, IfSome, option_map};
ghost use Rattle.gw_main.specs.Addresses.{host_of, read_address};
ghost use Rattle.gw_main.specs.Addresses as spec;

use super::number::{number_u8, number_u16};
use sn_local::Addr;

/// The first place of an octet.
fn place_of(text: &[u8], mark: u8) -> Option<usize>
    ensures place { result ≡ position (λ octet. octet == mark) text.now }
    ensures within { IfSome result (λ at. at < length text.now) }
{
    text.iter().position(|octet| *octet == mark)
}

/// What stands before the first place of an octet, and what stands after it.
fn cut(text: &[u8], mark: u8) -> Option<(&[u8], &[u8])>
    ensures { option_map (λ parts. (parts.0.now, parts.1.now)) result ≡ spec.cut mark text.now }
{
    match place_of(text, mark) {
        None => None,
        Some(at) => {
            let (front, rest) = text.split_at(at);
            let (_, behind) = rest.split_at(1);
            Some((front, behind))
        }
    }
}

/// Four numbers below 256 as a host, the first of them the highest.
fn host_from(a: &[u8], b: &[u8], c: &[u8], d: &[u8]) -> Option<u32>
    ensures { result ≡ spec.host_from a.now b.now c.now d.now }
{
    let w = number_u8(a)?;
    let x = number_u8(b)?;
    let y = number_u8(c)?;
    let z = number_u8(d)?;
    Some(((u32::from(w) * 256 + u32::from(x)) * 256 + u32::from(y)) * 256 + u32::from(z))
}

/// The host that four numbers write, with dots between them.
fn host(text: &[u8]) -> Option<u32>
    ensures { result ≡ host_of text.now }
{
    let (a, rest) = cut(text, b'.')?;
    let (b, rest) = cut(rest, b'.')?;
    let (c, d) = cut(rest, b'.')?;
    host_from(a, b, c, d)
}

/// The address that a text writes as `a.b.c.d:port`: numbers in decimal digits, without a sign,
/// those of the host below 256 and the port below 65,536. Nothing where it writes none.
pub fn address(text: &[u8]) -> Option<Addr>
    ensures { result ≡ read_address text.now }
{
    let (before, behind) = cut(text, b':')?;
    let host = host(before)?;
    let port = number_u16(behind)?;
    Some(Addr { host, port })
}
