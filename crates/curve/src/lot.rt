// A lot of bonds: its terms, and its collateral value under the card's curves.

ghost use Rattle.std.specs.Prelude.{◌≡◌, ℕ, ◌<◌, ◌≤◌, true, Decides, MatchResult};
ghost use Rattle.curve.specs.Points.{Haircut};
ghost use Rattle.curve.specs.Card.{nth_points};
ghost use Rattle.curve.specs.Lot.{InRange, collateral as value_of, lot_of, Priced, Unpriced};

use crate::card::Card;
use cause::Cause;

// A lot as it is offered: any number may stand in a field.
#[derive(Clone, Copy, PartialEq, Eq, Debug)]
pub struct Terms {
    pub issuer: u64,
    pub class: u64,
    pub rating: u64,
    pub months: u64,
    pub market: u64,
}

// A lot whose fields are in their ranges, with its collateral value.
#[derive(Clone, Copy, PartialEq, Eq, Debug)]
pub struct Lot {
    pub issuer: u8,
    pub class: u8,
    pub rating: u8,
    pub months: u16,
    pub market: u64,
    pub worth: u64,
}

impl Terms {
    fn in_range(&self) -> bool
        ensures { Decides result (InRange self.now) }
    {
        self.issuer <= 255
            && self.class <= 7
            && (1..=22).contains(&self.rating)
            && self.months <= 1200
            && (1..=100_000_000_000).contains(&self.market)
    }

    // The haircut of a lot with these terms.
    fn haircut(&self, card: &Card) -> Result<u16, Cause>
        ensures { MatchResult result
            (λ h. InRange self.now × Haircut (nth_points card.now.curves self.now.class) self.now.months h × (h ≤ 10000))
            (λ e. Unpriced (nth_points card.now.curves) self.now e) }
    {
        if !self.in_range() {
            return Err(Cause::FieldOutside);
        }
        card.haircut(self.class, self.months)
    }

    // The lot with these terms under a haircut. The fields are proved to fit, so the casts lose nothing;
    // `try_from` would only refuse once more what was refused before.
    fn lot(&self, haircut: u16) -> Lot
        requires { InRange self.now × (haircut ≤ 10000) }
        ensures { result ≡ lot_of self.now haircut }
    {
        Lot {
            issuer: self.issuer as u8,
            class: self.class as u8,
            rating: self.rating as u8,
            months: self.months as u16,
            market: self.market,
            worth: collateral(self.market, haircut),
        }
    }

    // The lot with its collateral value, fixed by the curve of its class.
    pub fn price(&self, card: &Card) -> Result<Lot, Cause>
        ensures { MatchResult result
            (λ l. Priced (nth_points card.now.curves) self.now l)
            (λ e. Unpriced (nth_points card.now.curves) self.now e) }
    {
        let haircut = self.haircut(card)?;
        Ok(self.lot(haircut))
    }
}

// The collateral value of a market value under a haircut, rounded down.
fn collateral(market: u64, haircut: u16) -> u64
    requires { (market ≤ 100000000000) × (haircut ≤ 10000) }
    ensures { result ≡ value_of market haircut }
{
    market * (10_000 - haircut as u64) / 10_000
}
