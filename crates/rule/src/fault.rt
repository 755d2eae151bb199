ghost use Rattle.std.specs.Prelude.{◌≡◌, cond, Ok};
ghost use Rattle.rule.specs.Refusing.{fault};

use cause::Cause;

// Why a rule text is refused, and at which byte of it.
#[derive(Clone, Copy, PartialEq, Eq, Debug)]
pub struct TextFault {
    pub cause: Cause,
    pub place: usize,
}

impl TextFault {
    // A test that is taken by `?`, so that the faults of one mark stand one under the other.
    pub(crate) fn refuse_if(wrong: bool, cause: Cause, place: usize) -> Result<(), TextFault>
        ensures { result ≡ cond wrong (fault cause place) (Ok tt) }
    {
        if wrong {
            Err(TextFault { cause, place })
        } else {
            Ok(())
        }
    }
}
