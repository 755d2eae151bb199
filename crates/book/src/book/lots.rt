ghost use Rattle.std.specs.Prelude.{◌≡◌, false, None};
ghost use Rattle.binder.specs.Meaning.{Meaning};
ghost use Rattle.calls.specs.State.{held_at};
ghost use Rattle.calls.specs.Call.{pledged_at};
ghost use Rattle.calls.specs.Call.Call.{add as add_call, withdraw as withdraw_call};
ghost use Rattle.calls.specs.Step.{Step, with_lot};
ghost use Rattle.book.specs.View.{view};
ghost use Rattle.book.specs.Answers.{adding, withdrawing};

use crate::book::Book;
use crate::places::{LOTS, Place};
use crate::pledges::is_pledged;
use cause::Cause;
use curve::card::Card;
use curve::lot::Terms;

impl Book {
    // Prices a lot and puts it at a place that is empty.
    fn put_lot(&mut self, place: Place<LOTS>, terms: &Terms, card: &Card) -> Result<u64, Cause>
        requires idle { self.old.in_run ≡ false }
        requires empty { held_at self.old.lots place.at ≡ false }
        ensures { (m : Meaning) → Step m (add_call place.at terms.now card.now) (view self.old) (adding result) (view self.new) }
    {
        let lot = terms.price(card)?;
        self.lots[place.at] = Some(lot);
        Ok(lot.worth)
    }

    // Empties a place whose lot has no pledge.
    fn take_lot(&mut self, place: Place<LOTS>)
        requires idle { self.old.in_run ≡ false }
        requires free { pledged_at (view self.old) place.at ≡ false }
        ensures { view self.new ≡ with_lot (view self.old) place.at None }
    {
        self.lots[place.at] = None;
    }

    // Puts a lot at an empty place, priced by the card, and returns its collateral value.
    pub fn add(&mut self, place: u64, terms: &Terms, card: &Card) -> Result<u64, Cause>
        ensures { (m : Meaning) → Step m (add_call place terms.now card.now) (view self.old) (adding result) (view self.new) }
    {
        let place = Place::<LOTS>::try_from(place)?;
        if self.in_run {
            return Err(Cause::RunOpen);
        }
        if self.lots[place.at].is_some() {
            return Err(Cause::PlaceTaken);
        }
        self.put_lot(place, terms, card)
    }

    // Empties the place of a lot that has no standing pledge.
    pub fn withdraw(&mut self, place: u64) -> Result<(), Cause>
        ensures { (m : Meaning) → Step m (withdraw_call place) (view self.old) (withdrawing result) (view self.new) }
    {
        let place = Place::<LOTS>::try_from(place)?;
        if self.in_run {
            return Err(Cause::RunOpen);
        }
        if self.lots[place.at].is_none() {
            return Err(Cause::PlaceEmpty);
        }
        if is_pledged(&self.standing, place) {
            return Err(Cause::LotPledged);
        }
        self.take_lot(place);
        Ok(())
    }
}
