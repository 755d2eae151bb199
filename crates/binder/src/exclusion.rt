// An exclusion of issuers over any binder.

ghost use Rattle.std.specs.Prelude.{◌≡◌, ℕ, false};
ghost use Rattle.binder.specs.Issuers.{listed, Adding};
ghost use Rattle.binder.specs.Layers.{without};
ghost use Rattle.binder.specs.Lawfuls.{without_lawful};

use crate::Binder;
use crate::issuers::Issuers;
use cause::Cause;
use grammar::Description;

#[derive(PartialEq, Eq, Debug, Drop)]
pub struct Exclusion<B> {
    issuers: Issuers,
    below: B,
}

impl<B> Exclusion<B> {
    // An exclusion of the issuers.
    pub fn new(issuers: Issuers, below: B) -> Exclusion<B>
        ensures { result ≡ record { issuers = issuers; below = below } }
    {
        Exclusion { issuers, below }
    }

    // An exclusion of no issuer.
    pub fn over(below: B) -> Exclusion<B>
        ensures { (result.below ≡ below) × ((i : ℕ) → listed result.issuers.flags i ≡ false) }
    {
        Exclusion::new(Issuers::none(), below)
    }

    // Excludes an issuer. One that is listed already changes nothing; a new one past 32 is refused.
    pub fn exclude(&mut self, issuer: u8) -> Result<(), Cause>
        ensures { Adding issuer self.old.issuers.flags self.new.issuers.flags result × (self.new.below ≡ self.old.below) }
    {
        self.issuers.add(issuer)
    }
}

impl<B: Binder> Binder for Exclusion<B> {
    ghost meaning = { λ x. without (listed x.issuers.flags) (B.Binder.meaning x.below) };

    ghost lawful = { λ x. without_lawful _ _ (B.Binder.lawful x.below) };

    fn held(&self, number: u64) -> bool {
        self.below.held(number)
    }

    fn admits(&self, number: u64, lot: Description) -> bool {
        !self.issuers.lists(lot.issuer) && self.below.admits(number, lot)
    }

    fn share(&self, number: u64, issuer: u16) -> u16 {
        self.below.share(number, issuer)
    }
}
