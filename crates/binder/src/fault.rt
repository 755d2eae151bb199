ghost use Rattle.std.specs.Prelude.{◌≡◌};

use cause::Cause;

// Why a rating table is not loaded: a number out of its range, which the rules place at 0. It has the
// fields of a text's fault and of a page's, but one type for the three would be no plainer: a byte of a
// text, a point of a page and this 0 are not to be mixed up.
#[derive(Clone, Copy, PartialEq, Eq, Debug)]
pub struct TableFault {
    pub cause: Cause,
    pub place: usize,
}

impl From<Cause> for TableFault {
    ghost from_gives = { λ cause fault. fault ≡ record { cause = cause; place = 0 } };

    fn from(cause: Cause) -> TableFault {
        TableFault { cause, place: 0 }
    }
}

// Why a rule schedule is not loaded, at which byte of its text (a share has place 0), and the label
// that the schedule was loaded under. A share has no text, so a text's fault within would be no plainer.
#[derive(Clone, Copy, PartialEq, Eq, Debug)]
pub struct ScheduleFault {
    pub cause: Cause,
    pub place: usize,
    pub label: u8,
}
