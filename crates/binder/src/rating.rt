// Rating tables.

ghost use Rattle.std.specs.Prelude.{◌↔◌, IsTrue};
ghost use Rattle.binder.specs.Rating.{limits_pass, LimitsInRange, Filling};

use crate::fault::TableFault;
use crate::limit::ClassLimit;
use crate::share::Share;
use crate::single::{Criteria, Single};
use cause::Cause;
use grammar::Description;

// A limit for each class, and one share for all issuers.
pub type RatingTable = Single<[ClassLimit; 8]>;

// The limit of a class that admits nothing.
const CLOSED: ClassLimit = ClassLimit {
    worst: 0,
    longest: 0,
};

impl Criteria for [ClassLimit; 8] {
    ghost passes = { limits_pass };

    fn none() -> [ClassLimit; 8] {
        [CLOSED; 8]
    }

    fn passes(&self, lot: Description) -> bool {
        self.get(usize::from(lot.class))
            .copied()
            .unwrap_or(CLOSED)
            .admits(lot)
    }
}

// Whether the limit of every class is in range. `position` stops at the first that is not; with `all`, which was
// tried, every limit is looked at.
fn are_in_range(limits: &[ClassLimit; 8]) -> bool
    ensures { IsTrue result ↔ LimitsInRange limits.now }
{
    limits
        .iter()
        .position(|limit| !limit.is_in_range())
        .is_none()
}

impl RatingTable {
    // Loads the share and the limit of each class. A number out of range leaves the table.
    pub fn load(&mut self, share: u64, limits: &[ClassLimit; 8]) -> Result<(), TableFault>
        ensures { Filling share limits.now self.old self.new result }
    {
        let share = Share::try_from(share)?;
        if !are_in_range(limits) {
            return Err(Cause::RangePassed.into());
        }
        *self = Single::new(*limits, share);
        Ok(())
    }
}
