// A binder of any kind, as a program builds it from parts that are known only when it runs: a rating
// table, a rule schedule, an exclusion over a binder, or a pair of binders.
#![tactic(auto)]

ghost use Rattle.std.specs.Prelude.{◌≡◌, IfOk};
ghost use Rattle.binder.specs.Issuers.{listed};
ghost use Rattle.binder.specs.Layers.{without, joined};
ghost use Rattle.binder.specs.Meaning.{Meaning};
ghost use Rattle.binder.specs.Switch.{Asked};
ghost use Rattle.named.specs.Any.{any_meaning};
ghost use Rattle.named.specs.Anys.{any_lawful};

use binder::Binder;
use binder::issuers::Issuers;
use binder::rating::RatingTable;
use binder::schedule::RuleSchedule;
use binder::switch::{Side, Switch};
use grammar::Description;
use std::alloc::{AllocError, Global};

// No equality and no printing: two of them differ in what they admit, which no derive compares.
#[derive(Drop)]
pub enum AnyBinder {
    Table(RatingTable),
    Schedule(RuleSchedule),
    Exclusion(Issuers, Box<AnyBinder>),
    Pair(Switch, Box<AnyBinder>, Box<AnyBinder>),
}

impl AnyBinder {
    // This binder without some issuers.
    pub fn excluding(self, heap: Global, issuers: Issuers) -> Result<AnyBinder, AllocError>
        ensures { IfOk result (λ b. any_meaning b ≡ without (listed issuers.flags) (any_meaning self)) }
    {
        let below = Box::new(heap, self)?;
        Ok(AnyBinder::Exclusion(issuers, below))
    }

    // This binder up to the switch, and another from there on.
    pub fn joined_to(
        self,
        heap: Global,
        switch: Switch,
        second: AnyBinder,
    ) -> Result<AnyBinder, AllocError>
        ensures { IfOk result (λ b. any_meaning b ≡ joined switch.at (any_meaning self) (any_meaning second)) }
    {
        let first = Box::new(heap, self)?;
        let second = Box::new(heap, second)?;
        Ok(AnyBinder::Pair(switch, first, second))
    }
}

// The binder of a pair that a number belongs to, and the number that it has there.
fn side<'a>(
    switch: &Switch,
    first: &'a AnyBinder,
    second: &'a AnyBinder,
    number: u64,
) -> Option<(&'a AnyBinder, u64)>
    ensures { Asked switch.now.at number (λ n b. (b.0.now ≡ first.now) × (b.1 ≡ n)) (λ n b. (b.0.now ≡ second.now) × (b.1 ≡ n)) result }
{
    match switch.route(number)? {
        (Side::First, n) => Some((first, n)),
        (Side::Second, n) => Some((second, n)),
    }
}

// The types `Exclusion` and `Pair` of the crate binder would hand each question on, but a cycle of calls
// through their methods gets no proof: so the list and the switch are asked here.
impl Binder for AnyBinder {
    ghost meaning = { any_meaning };

    ghost lawful = { any_lawful };

    fn held(&self, number: u64) -> bool {
        match self {
            AnyBinder::Table(table) => table.held(number),
            AnyBinder::Schedule(schedule) => schedule.held(number),
            AnyBinder::Exclusion(_, below) => below.held(number),
            AnyBinder::Pair(switch, first, second) => match side(switch, first, second, number) {
                Some((binder, n)) => binder.held(n),
                None => false,
            },
        }
    }

    fn admits(&self, number: u64, lot: Description) -> bool {
        match self {
            AnyBinder::Table(table) => table.admits(number, lot),
            AnyBinder::Schedule(schedule) => schedule.admits(number, lot),
            AnyBinder::Exclusion(issuers, below) => {
                !issuers.lists(lot.issuer) && below.admits(number, lot)
            }
            AnyBinder::Pair(switch, first, second) => match side(switch, first, second, number) {
                Some((binder, n)) => binder.admits(n, lot),
                None => false,
            },
        }
    }

    fn share(&self, number: u64, issuer: u16) -> u16 {
        match self {
            AnyBinder::Table(table) => table.share(number, issuer),
            AnyBinder::Schedule(schedule) => schedule.share(number, issuer),
            AnyBinder::Exclusion(_, below) => below.share(number, issuer),
            AnyBinder::Pair(switch, first, second) => match side(switch, first, second, number) {
                Some((binder, n)) => binder.share(n, issuer),
                None => 0,
            },
        }
    }
}
