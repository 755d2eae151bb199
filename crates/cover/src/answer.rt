// The answer of an allocation.

ghost use Rattle.std.specs.Prelude.{◌≡◌, ◌-◌, ◌≤◌, if◌then◌else◌, Ok, Err, nat_eq};

// The rounds where all that is owed is given, else what is short of it.
pub fn answer(rounds: usize, given: u64, owed: u64) -> Result<usize, u64>
    requires { given ≤ owed }
    ensures { result ≡ (if nat_eq given owed then Ok rounds else Err (owed - given)) }
{
    if given == owed {
        Ok(rounds)
    } else {
        Err(owed - given)
    }
}
