// A book with the slip of its open run, and one method for each order: its call is made, or there is
// no slip to make it with.

ghost use Rattle.std.specs.Prelude.{◌≡◌, ◌≤◌, [], length, take, drop, Some, None};
ghost use Rattle.binder.specs.Meaning.{Meaning};
ghost use Rattle.curve.specs.declared.card.Card.{Card as Carded};
ghost use Rattle.book.specs.View.{view};
ghost use Rattle.life.specs.Turn.{Turn, Wrote, count_of};
ghost use Rattle.life.specs.Matched.{Matched};
ghost use Rattle.life.specs.Reported.{reported};
ghost use Rattle.life.specs.declared.order.Order.TheVariants.{Add, Withdraw, Open, Close, Begin, Allocate, Settle, Abandon};

use crate::order::{Granted, Order, Outcome, Refused};
use binder::Binder;
use book::book::Book;
use book::book::allocate::AllocateFault;
use book::slip::Slip;
use calls::Instruction;
use cover::Record;
use curve::card::Card;
use curve::lot::Terms;

// How many instructions an outcome tells of.
pub fn count(outcome: Outcome) -> usize
    ensures { result ≡ count_of outcome }
{
    match outcome {
        Ok(Granted::Closed(n) | Granted::Settled(n)) => n,
        _ => 0,
    }
}

// What is told of an allocation.
fn report(answer: Result<usize, AllocateFault>, note: Record) -> Outcome
    ensures { result ≡ reported answer note }
{
    answer.map(Granted::Allocated).map_err(|fault| match fault {
        AllocateFault::Slip => Refused::For(fault.cause()),
        AllocateFault::Short(shortage) => Refused::Short(shortage, note),
    })
}

// Keeps a slip where there is none.
fn keep(place: &mut Option<Slip>, slip: Slip)
    requires { place.old ≡ None }
    ensures { place.new ≡ Some slip }
{
    match place.replace(slip) {
        Some(_old) => unreachable!(),
        None => (),
    }
}

// The slip is held exactly while a run is open. An order that writes nothing says so (`none`), since its outcome
// alone tells how many instructions it wrote.
pub(crate) struct Holder {
    pub(crate) book: Book,
    pub(crate) slip: Option<Slip>,
    ghost matched: { Matched book slip },
}

impl Holder {
    fn add(&mut self, place: u64, terms: &Terms, card: &Card) -> Outcome
        ensures none { count_of result ≡ 0 }
        ensures turn { (m : Meaning) → Turn m card.now (Add place terms.now) (view self.old.book) result [] (view self.new.book) }
    {
        let worth = self.book.add(place, terms, card)?;
        Ok(Granted::Added(worth))
    }

    fn withdraw(&mut self, place: u64) -> Outcome
        ensures none { count_of result ≡ 0 }
        ensures turn { (m : Meaning) (k : Carded) → Turn m k (Withdraw place) (view self.old.book) result [] (view self.new.book) }
    {
        self.book.withdraw(place)?;
        Ok(Granted::Withdrawn)
    }

    fn open<B: Binder>(&mut self, place: u64, amount: u64, schedule: u64, binder: &B) -> Outcome
        ensures none { count_of result ≡ 0 }
        ensures turn { (k : Carded) → Turn (B.Binder.meaning binder.now) k (Open place amount schedule) (view self.old.book) result [] (view self.new.book) }
    {
        self.book.open(place, amount, schedule, binder)?;
        Ok(Granted::Opened)
    }

    fn close(&mut self, place: u64, list: &mut [Instruction]) -> Outcome
        ensures turn { (m : Meaning) (k : Carded) → Turn m k (Close place) (view self.old.book) result (take (count_of result) list.new) (view self.new.book) }
        ensures wrote { Wrote result list.old list.new }
    {
        let count = self.book.close(place, list)?;
        Ok(Granted::Closed(count))
    }

    fn begin(&mut self) -> Outcome
        ensures none { count_of result ≡ 0 }
        ensures turn { (m : Meaning) (k : Carded) → Turn m k Begin (view self.old.book) result [] (view self.new.book) }
    {
        let slip = self.book.begin()?;
        let run = slip.run();
        keep(&mut self.slip, slip);
        Ok(Granted::Began(run))
    }

    fn allocate<B: Binder>(&mut self, binder: &B) -> Outcome
        ensures none { count_of result ≡ 0 }
        ensures turn { (k : Carded) → Turn (B.Binder.meaning binder.now) k Allocate (view self.old.book) result [] (view self.new.book) }
    {
        let mut note = Record {
            exposures: 0,
            lots: 0,
            issuers: [0; 16],
        };
        let slip = self.slip.as_ref().ok_or(Refused::NoSlip)?;
        let answer = self.book.allocate(slip, binder, &mut note);
        report(answer, note)
    }

    fn settle(&mut self, list: &mut [Instruction]) -> Outcome
        ensures turn { (m : Meaning) (k : Carded) → Turn m k Settle (view self.old.book) result (take (count_of result) list.new) (view self.new.book) }
        ensures wrote { Wrote result list.old list.new }
    {
        let slip = self.slip.take().ok_or(Refused::NoSlip)?;
        match self.book.settle(slip, list) {
            Ok(count) => Ok(Granted::Settled(count)),
            Err((cause, slip)) => {
                keep(&mut self.slip, slip);
                Err(Refused::For(cause))
            }
        }
    }

    pub fn abandon(&mut self) -> Outcome
        ensures none { count_of result ≡ 0 }
        ensures turn { (m : Meaning) (k : Carded) → Turn m k Abandon (view self.old.book) result [] (view self.new.book) }
        ensures gone { self.new.slip ≡ None }
    {
        let slip = self.slip.take().ok_or(Refused::NoSlip)?;
        match self.book.abandon(slip) {
            Ok(()) => Ok(Granted::Abandoned),
            Err((_cause, _slip)) => unreachable!(),
        }
    }

    // Carries out one order. What it writes stands at the start of the list.
    pub fn carry_out<B: Binder>(
        &mut self,
        order: Order,
        list: &mut [Instruction],
        binder: &B,
        card: &Card,
    ) -> Outcome
        ensures turn { Turn (B.Binder.meaning binder.now) card.now order (view self.old.book) result (take (count_of result) list.new) (view self.new.book) }
        ensures wrote { Wrote result list.old list.new }
    {
        match order {
            Order::Add(place, terms) => self.add(place, &terms, card),
            Order::Withdraw(place) => self.withdraw(place),
            Order::Open(place, amount, schedule) => self.open(place, amount, schedule, binder),
            Order::Close(place) => self.close(place, list),
            Order::Begin => self.begin(),
            Order::Allocate => self.allocate(binder),
            Order::Settle => self.settle(list),
            Order::Abandon => self.abandon(),
        }
    }
}
