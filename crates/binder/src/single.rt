// A binder of one schedule, under number 0.

ghost use Rattle.std.specs.Prelude.{◌≡◌, Bool, true, false};
ghost use Rattle.grammar.specs.declared.Description.{Description as Described};
ghost use Rattle.binder.specs.Meaning.{Blank, in_range, single};
ghost use Rattle.binder.specs.Lawfuls.{single_lawful};

use crate::Binder;
use crate::ranges::is_lot;
use crate::share::Share;
use grammar::Description;

// What a schedule asks of a lot whose fields are in range.
pub trait Criteria {
    ghost passes: { Self → Described → Bool };

    // Criteria that no such lot meets.
    fn none() -> Self
        ensures { (d : Described) → in_range d ≡ true → passes result d ≡ false };

    // Whether the lot meets them.
    fn passes(&self, lot: Description) -> bool
        ensures { result ≡ passes self.now lot };
}

// The criteria, and one share for all issuers.
#[derive(Clone, Copy, PartialEq, Eq, Debug)]
pub struct Single<C> {
    criteria: C,
    share: Share,
}

impl<C> Single<C> {
    // A schedule of the criteria and the share.
    pub(crate) fn new(criteria: C, share: Share) -> Single<C>
        ensures { result ≡ record { criteria = criteria; share = share } }
    {
        Single { criteria, share }
    }
}

impl<C: Criteria> Single<C> {
    // A schedule that admits nothing.
    pub fn blank() -> Single<C>
        ensures { Blank (single (C.passes result.criteria) result.share.parts) }
    {
        Single {
            criteria: C::none(),
            share: Share::zero(),
        }
    }
}

impl<C: Criteria> Binder for Single<C> {
    ghost meaning = { λ s. single (C.passes s.criteria) s.share.parts };

    ghost lawful = { λ s. single_lawful _ s.share.parts s.share.bounded };

    fn held(&self, number: u64) -> bool {
        number == 0
    }

    fn admits(&self, number: u64, lot: Description) -> bool {
        self.held(number) && is_lot(lot) && self.criteria.passes(lot)
    }

    fn share(&self, number: u64, _issuer: u16) -> u16 {
        if self.held(number) {
            self.share.parts()
        } else {
            0
        }
    }
}
