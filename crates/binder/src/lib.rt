// Binders of schedules: which numbers are held, which lots a schedule admits, which share of an
// exposure an issuer may cover. A binder is a rating table or a rule schedule, an exclusion of
// issuers over a binder, or a pair of binders. Nothing is allocated; a question takes constant time
// in a table, an exclusion and a pair, and one run of the rule in a schedule.
#![tactic(auto)]

ghost use Rattle.std.specs.Prelude.{◌≡◌};
ghost use Rattle.binder.specs.Meaning.{Meaning, Lawful};

use grammar::Description;

pub mod exclusion;
pub mod fault;
pub mod issuers;
pub mod laws;
pub mod limit;
pub mod pair;
mod ranges;
pub mod rating;
pub mod schedule;
pub mod share;
pub mod single;
pub mod switch;

pub trait Binder {
    ghost meaning: { Self → Meaning };

    // Whether a schedule is held under the number.
    fn held(&self, number: u64) -> bool
        ensures { result ≡ (meaning self.now).held number };

    // Whether the schedule of the number admits the lot.
    fn admits(&self, number: u64, lot: Description) -> bool
        ensures { result ≡ (meaning self.now).admits number lot };

    // The issuer's share under the schedule of the number, in ten-thousandths.
    fn share(&self, number: u64, issuer: u16) -> u16
        ensures { result ≡ (meaning self.now).share number issuer };

    ghost lawful: { (b : Self) → Lawful (meaning b) };
}
