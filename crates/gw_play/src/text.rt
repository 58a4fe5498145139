//! Octets as text.

ghost use Rattle.std.specs.Prelude.{◌≡◌, IfOk, string_bytes};
ghost use Rattle.gw_play.specs.Texts.{hex_text};

use std::alloc::{AllocError, Global};

/// Octets in lower-case hexadecimal digits, `-` for none.
pub fn hexadecimal(alloc: Global, octets: &[u8]) -> Result<String, AllocError>
    ensures { IfOk result (λ text. string_bytes text ≡ hex_text octets.now) }
{
    match octets {
        [] => String::from_str(alloc, "-"),
        _ => hex::encode(alloc, octets),
    }
}
