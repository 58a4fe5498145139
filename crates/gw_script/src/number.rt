//! Numbers in decimal digits.

ghost use Rattle.std.specs.Prelude.{◌≡◌, ◌==◌, ℕ, MatchOption, slice_index};
ghost use Rattle.octets.specs.Decimal.{IsNumber};

/// The number that decimal digits write. Nothing where another octet stands among them, a sign too,
/// where there is none, and where a `u64` cannot hold the number.
pub fn number(text: &[u8]) -> Option<u64>
    ensures { MatchOption result ((n : ℕ) → ¬ (IsNumber 64 text.now n)) (IsNumber 64 text.now) }
{
    if has_plus(text) {
        return None;
    }
    let Ok(digits) = std::str::from_utf8(text) else {
        return None;
    };
    digits.parse::<u64>().ok()
}

/// The same, if a `u32` holds it.
pub fn number_u32(text: &[u8]) -> Option<u32>
    ensures { MatchOption result ((n : ℕ) → ¬ (IsNumber 32 text.now n)) (IsNumber 32 text.now) }
{
    u32::try_from(number(text)?).ok()
}

/// The same, where a `u16` holds it.
pub fn number_u16(text: &[u8]) -> Option<u16>
    ensures { MatchOption result ((n : ℕ) → ¬ (IsNumber 16 text.now n)) (IsNumber 16 text.now) }
{
    u16::try_from(number(text)?).ok()
}

/// The same, where a `u8` holds it.
pub fn number_u8(text: &[u8]) -> Option<u8>
    ensures { MatchOption result ((n : ℕ) → ¬ (IsNumber 8 text.now n)) (IsNumber 8 text.now) }
{
    u8::try_from(number(text)?).ok()
}

/// Whether a plus stands in front, which `parse` would take.
fn has_plus(text: &[u8]) -> bool
    ensures { result ≡ (slice_index text.now 0 == 43) }
{
    text.first().copied() == Some(b'+')
}
