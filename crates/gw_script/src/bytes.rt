//! Octets in hexadecimal digits.

ghost use Rattle.std.specs.Prelude.{ℕ, List, IfOk, MatchOption};
ghost use Rattle.gw_script.specs.Octets.{IsHex};

use hex::FromHexError;
use octets::{NoMemory, Octets};
use std::alloc::Global;

/// The octets that hexadecimal digits of either case write, two for each octet; `-` writes none.
/// Nothing where the text is neither, an empty one too.
pub fn bytes(alloc: Global, text: &[u8]) -> Result<Option<Octets>, NoMemory>
    ensures { IfOk result (λ read. MatchOption read ((octets : List ℕ) → ¬ (IsHex text.now octets))
        (IsHex text.now)) }
{
    match text {
        [] => Ok(None),
        [b'-'] => Ok(Some(Octets::new(Vec::new(alloc))?)),
        _ => match hex::decode(alloc, text) {
            Ok(decoded) => Ok(Some(Octets::new(decoded)?)),
            Err(FromHexError::OutOfMemory) => Err(NoMemory),
            Err(_) => Ok(None),
        },
    }
}
