// The binder's answers about a book, asked for once and written down.

ghost use Rattle.std.specs.Prelude.{◌≡◌, ℕ, ◌*◌, ◌/◌, ◌%◌, ◌^◌, ◌<◌, ◌≤◌};
ghost use Rattle.table.specs.Agreement.{Agrees};
ghost use Rattle.cover.specs.View.{terms_at};
ghost use Rattle.cover.specs.Seen.{seen};
ghost use Rattle.calls.specs.State.{lot_at, exposure_at};
ghost use Rattle.calls.specs.Situation.{description, amount_of, situation_of};
ghost use Rattle.book.specs.Kept.{Worths, Amounts};
ghost use Rattle.book.specs.Asked.{held_as, amount, terms_for};

use binder::Binder;
use calls::Exposure;
use cover::{Problem, Terms};
use curve::lot::Lot;
use grammar::Description;

// No `From`: both types are of other crates. So it is with what an allocation is told, below.
fn describe(lot: &Lot) -> Description
    ensures { result ≡ description lot.now }
{
    Description {
        class: lot.class as u16,
        rating: lot.rating as u16,
        months: lot.months,
        issuer: lot.issuer as u16,
    }
}

// The part of an amount that a share in ten-thousandths is, rounded down.
fn part(amount: u64, share: u16) -> u64
    requires { (amount < 2 ^ 40) × (share ≤ 10000) }
    ensures value { result ≡ amount * share / 10000 }
    ensures low { result < 2 ^ 40 }
{
    amount * share as u64 / 10_000
}

// What an allocation is told of a lot.
fn held(lot: Lot) -> cover::Lot
    ensures { result ≡ held_as lot }
{
    cover::Lot {
        issuer: lot.issuer,
        worth: lot.worth,
    }
}

// What an allocation is told of an exposure.
fn owed(exposure: Exposure) -> u64
    ensures { result ≡ amount exposure }
{
    exposure.amount
}

// Whether the exposure's schedule admits the lot, and the exposure's limit for the lot's issuer; nothing where either is missing.
fn terms<B: Binder>(binder: &B, lot: Option<Lot>, exposure: Option<Exposure>) -> Terms
    requires { amount_of exposure < 2 ^ 40 }
    ensures value { result ≡ terms_for (B.Binder.meaning binder.now) lot exposure }
    ensures low { result.limit < 2 ^ 40 }
{
    match (lot, exposure) {
        (Some(l), Some(x)) => Terms {
            admitted: binder.admits(x.schedule, describe(&l)),
            limit: part(x.amount, binder.share(x.schedule, l.issuer as u16)),
        },
        _ => Terms {
            admitted: false,
            limit: 0,
        },
    }
}

// Writes down the terms of each pair of a lot place and an exposure place.
fn note_terms<B: Binder>(
    problem: &mut Problem,
    binder: &B,
    lots: &[Option<Lot>; 64],
    exposures: &[Option<Exposure>; 16],
)
    requires { Amounts exposures.now }
    ensures rest { (problem.new.lots ≡ problem.old.lots) × (problem.new.exposures ≡ problem.old.exposures) }
    ensures asked { (k : ℕ) → k < 1024 → terms_at problem.new.admitted problem.new.limits k ≡ terms_for (B.Binder.meaning binder.now) (lot_at lots.now (k / 16)) (exposure_at exposures.now (k % 16)) }
{
    // By index, since nothing is known of what was written through a `zip` over `iter_mut`.
    for k in 0..1024usize {
        let of_pair = terms(binder, lots[k / 16], exposures[k % 16]);
        problem.admitted[k] = of_pair.admitted;
        problem.limits[k] = of_pair.limit;
    }
}

// The book's lots and exposures with the binder's answers about them.
pub fn problem<B: Binder>(
    binder: &B,
    lots: &[Option<Lot>; 64],
    exposures: &[Option<Exposure>; 16],
) -> Problem
    requires { Worths lots.now × Amounts exposures.now }
    ensures { Agrees (situation_of (B.Binder.meaning binder.now) lots.now exposures.now) (seen result) }
{
    let mut problem = Problem {
        lots: lots.map(|lot| lot.map(held)),
        exposures: exposures.map(|exposure| exposure.map(owed)),
        admitted: [false; 1024],
        limits: [0; 1024],
    };
    note_terms(&mut problem, binder, lots, exposures);
    problem
}
