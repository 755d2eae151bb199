// Numbers in decimal, bytes in hexadecimal.

ghost use Rattle.std.specs.Prelude.{◌≡◌, ℕ, MatchOption, ◌≢◌, slice_index};
ghost use Rattle.script.specs.Numerals.{Decimal, HexByte};

// A word that does not begin with a +, which std would read as part of a number.
fn unsigned(word: &str) -> Option<&str>
    ensures { MatchOption result
        (slice_index word.now 0 ≡ 43)
        (λ w. (w.now ≡ word.now) × (slice_index word.now 0 ≢ 43)) }
{
    if word.starts_with('+') {
        return None;
    }
    Some(word)
}

// The number that a word writes, if it has digits alone and fits.
pub fn decimal(word: &str) -> Option<u64>
    ensures { MatchOption result ((n : ℕ) → Decimal word.now n → ⊥) (λ n. Decimal word.now n) }
{
    let digits = unsigned(word)?;
    u64::from_str_radix(digits, 10).ok()
}

// The byte that a word writes by one or two hexadecimal digits.
#[tactic(auto, using(crate::proofs::Reading::two_digits))]
pub fn hex_byte(word: &str) -> Option<u8>
    ensures { MatchOption result ((b : ℕ) → HexByte word.now b → ⊥) (λ b. HexByte word.now b) }
{
    if word.len() > 2 {
        return None;
    }
    let digits = unsigned(word)?;
    u8::from_str_radix(digits, 16).ok()
}
