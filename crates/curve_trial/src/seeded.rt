// Curves from a seed, and each month of each against the second method.

ghost use Rattle.std.specs.Prelude.{◌<◌};

use crate::draw::Draft;
use crate::step::haircuts;
use curve::card::Card;
use curve::curve::point::Point;
use curve::lot::Terms;
use std::alloc::{AllocError, Global};
use tally::Tally;

// A linear congruence, and no generator of the kit: the counts that are printed are those of its sequence.
#[derive(Drop)]
struct Seed {
    state: u64,
}

impl Seed {
    // A number below a bound.
    fn below(&mut self, bound: u64) -> u64
        requires { 0 < bound }
        ensures { result < bound }
    {
        self.state = self
            .state
            .wrapping_mul(6364136223846793005)
            .wrapping_add(1442695040888963407);
        (self.state >> 16) % bound
    }

    // A lawful curve: steps of 1 to 80 months, haircuts that rise or stay.
    fn curve(&mut self, heap: Global) -> Result<Draft, AllocError> {
        let mut points = Vec::new(heap);
        let mut month: u16 = 0;
        let mut haircut = self.below(100) as u16;
        let count = 1 + self.below(16);
        for _ in 0..count {
            points.push(Point { month, haircut })?;
            month = month.saturating_add(1 + self.below(80) as u16);
            if self.below(4) > 0 {
                haircut = haircut.saturating_add(self.below(661) as u16);
            }
        }
        Ok(Draft { points })
    }
}

// Whether `value` is `market` less the haircut, rounded down.
fn right_value(market: u64, haircut: u64, value: u64) -> bool {
    let whole = market.saturating_mul(10_000u64.saturating_sub(haircut));
    let low = value.saturating_mul(10_000);
    low <= whole && whole < low.saturating_add(10_000)
}

// A lot of class 0 at a month: priced under the haircut of the second method, or refused past its end.
fn right_lot(card: &Card, months: u64, market: u64, haircut: Option<u64>) -> bool {
    let terms = Terms {
        issuer: 0,
        class: 0,
        rating: 1,
        months,
        market,
    };
    match (terms.price(card), haircut) {
        (Ok(lot), Some(h)) => right_value(market, h, lot.worth),
        (Err(cause), None) => cause.number() == 18,
        _ => false,
    }
}

// The next curve, tried at each of its months and at the one after; answers how many months it has.
fn try_curve(tally: &mut Tally, heap: Global, seed: &mut Seed) -> Result<u64, AllocError> {
    let draft = seed.curve(heap)?;
    let mut card = Card::blank();
    let page = draft.page(heap)?;
    tally.note(card.load(0, page.as_slice()).is_ok());
    let second = haircuts(heap, draft.points.as_slice())?;
    for (month, haircut) in second.iter().enumerate() {
        let market = 1 + seed.below(100_000_000_000);
        tally.note(right_lot(&card, month as u64, market, Some(*haircut)));
    }
    let past = second.len() as u64;
    if past <= 1200 {
        tally.note(right_lot(&card, past, 1_000_000, None));
    }
    Ok(past)
}

// The number of months tried, and how the trials came out.
pub(crate) fn try_seeded(heap: Global, curves: u64) -> Result<(u64, Tally), AllocError> {
    let mut tally = Tally::new();
    let mut months: u64 = 0;
    let mut seed = Seed { state: 20250607 };
    for _ in 0..curves {
        months = months.saturating_add(try_curve(&mut tally, heap, &mut seed)?);
    }
    Ok((months, tally))
}
