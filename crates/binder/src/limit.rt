ghost use Rattle.std.specs.Prelude.{◌≡◌, ◌↔◌, IsTrue};

use crate::ranges::{LONGEST_TERM, WORST_RATING};
use grammar::Description;

// The limit of one class: the worst rating that is admitted (0 admits none) and the longest term,
// in months. Any number may stand here; a table that holds it has seen that it is in range.
#[derive(Clone, Copy, PartialEq, Eq, Debug)]
pub struct ClassLimit {
    pub worst: u64,
    pub longest: u64,
}

impl ClassLimit {
    ghost use Rattle.binder.specs.Limit.{LimitInRange, within};

    // Whether both numbers are in range.
    pub fn is_in_range(&self) -> bool
        ensures { IsTrue result ↔ LimitInRange self.now }
    {
        self.worst <= u64::from(WORST_RATING) && self.longest <= u64::from(LONGEST_TERM)
    }

    // Whether a lot of the class has no worse rating and no longer term.
    pub fn admits(&self, lot: Description) -> bool
        ensures { result ≡ within self.now lot }
    {
        u64::from(lot.rating) <= self.worst && u64::from(lot.months) <= self.longest
    }
}
