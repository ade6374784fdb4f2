//! Numbers in decimal, and the line of a moment.
ghost use Rattle.std.specs.Prelude.{◌≡◌, ◌≢◌, ◌<◌, ◌^◌, ℕ, MatchOption, true, false, decimal, length, slice_index};
ghost use Rattle.vme_moments.specs.Moments.{moment_of, number_of};
ghost use Rattle.vme_moments.specs.Numerals.{IsNumber};

use std::str;

/// Whether digits may be a number in decimal: they have no sign, and no leading zero.
fn is_plain(digits: &[u8]) -> bool
    ensures unsigned { result ≡ true → slice_index digits.now 0 ≢ 43 }
    ensures short { result ≡ true → slice_index digits.now 0 ≡ 48 → length digits.now ≡ 1 }
    ensures other { result ≡ false → (n : ℕ) → n < 2 ^ 64 → digits.now ≢ decimal n }
{
    if digits.is_empty() {
        return true;
    }
    if digits[0] == b'+' {
        return false;
    }
    digits[0] != b'0' || digits.len() == 1
}

/// The number that a text spells.
fn number_in(text: &str) -> Option<u64>
    ensures { MatchOption result ((n : ℕ) → ¬ (IsNumber text.now n)) (λ n. IsNumber text.now n) }
{
    text.parse().ok()
}

/// The number that these bytes spell in decimal, without a sign or a leading zero, if they spell
/// one of 64 bits at most.
pub fn number_of(digits: &[u8]) -> Option<u64>
    ensures { result ≡ number_of digits.now }
{
    if !is_plain(digits) {
        return None;
    }
    match str::from_utf8(digits) {
        Ok(text) => number_in(text),
        Err(_) => None,
    }
}

/// The moment whose line this is, without its line feed, if it is one.
pub(crate) fn moment_of(line: &[u8]) -> Option<u64>
    ensures { result ≡ moment_of line.now }
{
    match line {
        [b'@', digits @ ..] => number_of(digits),
        _ => None,
    }
}
