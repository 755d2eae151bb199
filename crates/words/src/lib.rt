// Sets of places as the bits of a word.
#![tactic(auto)]

ghost use Rattle.std.specs.Prelude.{◌≡◌, ℕ, ◌+◌, ◌*◌, ◌^◌, ◌<◌, Bool, false, length, if◌then◌else◌, slice_index_or};
ghost use Rattle.words.specs.Word.{bit};

// Twice the word, and one more where the flag is set.
fn push(word: u64, set: bool) -> u64
    requires { word < 2 ^ 63 }
    ensures { result ≡ (if set then 1 else 0) + 2 * word }
{
    if set { 2 * word + 1 } else { 2 * word }
}

// The word whose bit `p` is set where `flags[p]` is; flags after the 64th are left out.
pub fn pack(flags: &[bool]) -> u64
    ensures bits { (p : ℕ) → p < 64 → bit result p ≡ slice_index_or flags.now p false }
    ensures low { result < 2 ^ length flags.now }
{
    let mut word = 0;
    for set in flags[..flags.len().min(64)].iter().rev() {
        word = push(word, *set);
    }
    word
}
