ghost use Rattle.std.specs.Prelude.{◌≡◌, true};
ghost use Rattle.calls.specs.Call.Call.{allocate as allocate_call};
ghost use Rattle.calls.specs.Step.{Step};
ghost use Rattle.book.specs.View.{view, numbers};
ghost use Rattle.book.specs.Answers.{allocating, cause_of};
ghost use Rattle.book.specs.Covering.{Covering};

use crate::asking::problem;
use crate::book::Book;
use crate::slip::Slip;
use binder::Binder;
use cause::Cause;
use cover::Record;

// Why an allocation is refused: for its slip, or since no lawful table covers, with the shortage.
#[derive(Clone, Copy, PartialEq, Eq, Debug)]
pub enum AllocateFault {
    Slip,
    Short(u64),
}

impl AllocateFault {
    pub fn cause(self) -> Cause
        ensures { result ≡ cause_of self }
    {
        match self {
            AllocateFault::Slip => Cause::SlipStale,
            AllocateFault::Short(_) => Cause::NotCovered,
        }
    }
}

impl Book {
    // Makes the working table one that covers, or tells the shortage.
    fn cover<B: Binder>(&mut self, binder: &B, record: &mut Record) -> Result<usize, u64>
        requires { self.old.in_run ≡ true }
        ensures { Covering (B.Binder.meaning binder.now) (view self.old) «record».old «record».new (view self.new) result }
    {
        let problem = problem(binder, &self.lots, &self.exposures);
        let mut working = self.working;
        let answer = problem.allocate(&mut working, record);
        if answer.is_ok() {
            self.working = working;
        }
        answer
    }

    // Makes the working table one that is lawful and covers every open exposure, and returns by how
    // many rounds; or refuses, with the least shortage and a record that explains it.
    pub fn allocate<B: Binder>(
        &mut self,
        slip: &Slip,
        binder: &B,
        record: &mut Record,
    ) -> Result<usize, AllocateFault>
        ensures { Step (B.Binder.meaning binder.now) (allocate_call (numbers slip.now) «record».old) (view self.old) (allocating (numbers slip.now) «record».new result) (view self.new) }
    {
        if !self.owns(slip) {
            return Err(AllocateFault::Slip);
        }
        self.cover(binder, record).map_err(AllocateFault::Short)
    }
}
