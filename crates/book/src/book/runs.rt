ghost use Rattle.std.specs.Prelude.{◌≡◌, ◌≤◌, length, IfOk};
ghost use Rattle.binder.specs.Meaning.{Meaning};
ghost use Rattle.calls.specs.State.{opening as new_state};
ghost use Rattle.calls.specs.Call.{own};
ghost use Rattle.calls.specs.Call.Call.{begin as begin_call, settle as settle_call, abandon as abandon_call};
ghost use Rattle.calls.specs.Step.{Step};
ghost use Rattle.book.specs.View.{view, numbers};
ghost use Rattle.book.specs.Answers.{beginning, settling, abandoning};

use crate::book::Book;
use crate::places::{EXPOSURES, LOTS, PAIRS};
use crate::pledges::write_changes;
use crate::slip::Slip;
use calls::Instruction;
use cause::Cause;

// The most runs that a book opens.
const RUNS: u32 = 1_000_000;

impl Book {
    // An empty book with no run.
    pub fn new(number: u16) -> Book
        ensures { view result ≡ new_state number }
    {
        Book {
            lots: [None; LOTS],
            exposures: [None; EXPOSURES],
            standing: [0; PAIRS],
            working: [0; PAIRS],
            number,
            run: 0,
            in_run: false,
        }
    }

    // Whether a slip is that of the open run.
    pub(super) fn owns(&self, slip: &Slip) -> bool
        ensures { result ≡ own (view self.now) (numbers slip.now) }
    {
        self.open_run() == Some(slip.run) && slip.book == self.number
    }

    // Opens the next run and hands out its slip.
    pub fn begin(&mut self) -> Result<Slip, Cause>
        ensures { (m : Meaning) → Step m begin_call (view self.old) (beginning result) (view self.new) }
    {
        if self.in_run {
            return Err(Cause::RunOpen);
        }
        if self.run >= RUNS {
            return Err(Cause::RunsSpent);
        }
        self.run += 1;
        self.in_run = true;
        Ok(Slip {
            book: self.number,
            run: self.run,
        })
    }

    // Makes the working table stand, and ends the run. Writes, by lot and then by exposure, one
    // instruction for each place where the tables differ, and returns their number.
    pub fn settle(&mut self, slip: Slip, list: &mut [Instruction]) -> Result<usize, (Cause, Slip)>
        ensures room { IfOk result (λ n. n ≤ length list.old) }
        ensures step { (m : Meaning) → Step m (settle_call (numbers slip) list.old) (view self.old) (settling list.new result) (view self.new) }
    {
        if !self.owns(&slip) {
            return Err((Cause::SlipStale, slip));
        }
        if list.len() < self.held_lots() * self.open_exposures() {
            return Err((Cause::ListShort, slip));
        }
        slip.spend();
        let count = write_changes(&self.standing, &self.working, list);
        self.standing = self.working;
        self.in_run = false;
        Ok(count)
    }

    // Makes the working table the standing one again, and ends the run.
    pub fn abandon(&mut self, slip: Slip) -> Result<(), (Cause, Slip)>
        ensures { (m : Meaning) → Step m (abandon_call (numbers slip)) (view self.old) (abandoning result) (view self.new) }
    {
        if !self.owns(&slip) {
            return Err((Cause::SlipStale, slip));
        }
        slip.spend();
        self.working = self.standing;
        self.in_run = false;
        Ok(())
    }
}
