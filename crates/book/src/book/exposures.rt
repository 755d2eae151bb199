ghost use Rattle.std.specs.Prelude.{◌≡◌, ◌≤◌, length, IfOk, None};
ghost use Rattle.binder.specs.Meaning.{Meaning};
ghost use Rattle.calls.specs.Call.Call.{open_exposure as open_call, close as close_call};
ghost use Rattle.calls.specs.Call.{held_lots};
ghost use Rattle.calls.specs.Instructions.{closings, written};
ghost use Rattle.calls.specs.Step.{Step, with_exposure, with_tables, zeroed};
ghost use Rattle.book.specs.View.{view};
ghost use Rattle.book.specs.Answers.{opening, closing};

use crate::book::Book;
use crate::places::{EXPOSURES, Place};
use crate::pledges::{write_closings, zero_column};
use binder::Binder;
use calls::{Exposure, Instruction};
use cause::Cause;

// The largest amount.
const LARGEST: u64 = 1_000_000_000_000;

impl Book {
    // Opens an exposure at an empty place, under a schedule that the binder holds.
    pub fn open<B: Binder>(
        &mut self,
        place: u64,
        amount: u64,
        schedule: u64,
        binder: &B,
    ) -> Result<(), Cause>
        ensures { Step (B.Binder.meaning binder.now) (open_call place amount schedule) (view self.old) (opening result) (view self.new) }
    {
        let place = Place::<EXPOSURES>::try_from(place)?;
        if self.in_run {
            return Err(Cause::RunOpen);
        }
        if self.exposures[place.at].is_some() {
            return Err(Cause::PlaceTaken);
        }
        if !(1..=LARGEST).contains(&amount) {
            return Err(Cause::FieldOutside);
        }
        if !binder.held(schedule) {
            return Err(Cause::ScheduleUnknown);
        }
        self.exposures[place.at] = Some(Exposure { amount, schedule });
        Ok(())
    }

    // Empties an exposure's place and its pledges, with room in the list for an instruction a lot.
    fn take_exposure(&mut self, place: Place<EXPOSURES>, list: &mut [Instruction]) -> usize
        requires room { held_lots (view self.old) ≤ length list.old }
        ensures count { result ≡ length (closings self.old.standing place.at 64) }
        ensures fits { result ≤ length list.old }
        ensures list { list.new ≡ written (closings self.old.standing place.at 64) list.old }
        ensures after { view self.new ≡ with_tables (with_exposure (view self.old) place.at None) (zeroed self.old.standing place.at 64) (zeroed self.old.working place.at 64) }
    {
        let count = write_closings(&self.standing, place, list);
        zero_column(&mut self.standing, place);
        zero_column(&mut self.working, place);
        self.exposures[place.at] = None;
        count
    }

    // Empties an exposure's place. Writes, by lot, one instruction for each standing pledge to it, and
    // returns their number; the pledges are 0 in both tables then.
    pub fn close(&mut self, place: u64, list: &mut [Instruction]) -> Result<usize, Cause>
        ensures room { IfOk result (λ n. n ≤ length list.old) }
        ensures step { (m : Meaning) → Step m (close_call place list.old) (view self.old) (closing list.new result) (view self.new) }
    {
        let place = Place::<EXPOSURES>::try_from(place)?;
        if self.in_run {
            return Err(Cause::RunOpen);
        }
        if self.exposures[place.at].is_none() {
            return Err(Cause::PlaceEmpty);
        }
        if list.len() < self.held_lots() {
            return Err(Cause::ListShort);
        }
        Ok(self.take_exposure(place, list))
    }
}
