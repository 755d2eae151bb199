// A session from its opening on: orders one after the other, readings between them, and its end.

ghost use Rattle.std.specs.Prelude.{◌≡◌, ℕ, ◌≤◌, List, ◌++◌, length, take, drop};
ghost use Rattle.book.specs.View.{view};
ghost use Rattle.life.specs.Turn.{Played};
ghost use Rattle.calls.specs.declared.Instruction.{Instruction as Instructed};
ghost use Rattle.calls.specs.Life.{Life, Sound};
ghost use Rattle.calls.specs.State.{opening as new_state};
ghost use Rattle.book.specs.Readings.{lot_read, exposure_read, pledge_read, run_open};

use crate::holder::{Holder, count};
use crate::order::{Order, Outcome};
use crate::session::Session;
use binder::Binder;
use book::book::Book;
use book::book::readings::Kind;
use calls::{Exposure, Instruction};
use cause::Cause;
use curve::card::Card;
use curve::lot::Lot;

impl<B: Binder> Session<B> {
    // A new book under a binder.
    pub fn new(number: u16, binder: B, card: Card) -> Session<B>
        ensures same { (result.binder ≡ binder) × (result.card ≡ card) }
        ensures state { view result.holder.book ≡ new_state number }
    {
        let book = Book::new(number);
        Session {
            holder: Holder { book, slip: None },
            binder,
            card,
        }
    }

    // What `play` does. It stands apart since its proof is by hand: a planted bug in it would be refused at
    // a term of that proof, which shows nothing, and one in `play` is refused by these clauses.
    fn carry_out_all(
        &mut self,
        orders: &[Order],
        outcomes: &mut [Outcome],
        journal: &mut [Instruction],
    ) -> usize
        ensures same { (self.new.binder ≡ self.old.binder) × (self.new.card ≡ self.old.card) }
        ensures played { Played (B.Binder.meaning self.old.binder) self.old.card (view self.old.holder.book) (take (length outcomes.old) orders.now) (take (length orders.now) outcomes.new) (take result journal.new) (view self.new.holder.book) }
        ensures rest { drop (length orders.now) outcomes.new ≡ drop (length orders.now) outcomes.old }
        ensures room { result ≤ length journal.old }
        ensures behind { drop result journal.new ≡ drop result journal.old }
        ensures law { (number : ℕ) (given : List Instructed) → Life (B.Binder.meaning self.old.binder) number (view self.old.holder.book) given
            → Life (B.Binder.meaning self.old.binder) number (view self.new.holder.book) (given ++ take result journal.new)
            × Sound (B.Binder.meaning self.old.binder) (view self.new.holder.book) (given ++ take result journal.new) }
    {
        let n = orders.len().min(outcomes.len());
        let mut used = 0;
        // By index, since nothing is known of what was written through a `zip` over `iter_mut`; and with a count, since the
        // journal is the caller's.
        for i in 0..n {
            let lent = &mut journal[used..];
            let outcome = self
                .holder
                .carry_out(orders[i], lent, &self.binder, &self.card);
            used += count(outcome);
            outcomes[i] = outcome;
        }
        used
    }

    // Carries out orders one after the other, as many as there are places for outcomes, and returns how
    // many instructions they wrote into the journal. Nothing is left undone but for want of a slip. What
    // was a life of the book is one still, with these instructions given out, and all that holds at every
    // moment of a life holds of it: both tables are lawful, an allocation is granted exactly if some
    // lawful table covers, and the instructions add up to the standing pledges.
    pub fn play(
        &mut self,
        orders: &[Order],
        outcomes: &mut [Outcome],
        journal: &mut [Instruction],
    ) -> usize
        ensures same { (self.new.binder ≡ self.old.binder) × (self.new.card ≡ self.old.card) }
        ensures played { Played (B.Binder.meaning self.old.binder) self.old.card (view self.old.holder.book) (take (length outcomes.old) orders.now) (take (length orders.now) outcomes.new) (take result journal.new) (view self.new.holder.book) }
        ensures rest { drop (length orders.now) outcomes.new ≡ drop (length orders.now) outcomes.old }
        ensures room { result ≤ length journal.old }
        ensures behind { drop result journal.new ≡ drop result journal.old }
        ensures law { (number : ℕ) (given : List Instructed) → Life (B.Binder.meaning self.old.binder) number (view self.old.holder.book) given
            → Life (B.Binder.meaning self.old.binder) number (view self.new.holder.book) (given ++ take result journal.new)
            × Sound (B.Binder.meaning self.old.binder) (view self.new.holder.book) (given ++ take result journal.new) }
    {
        self.carry_out_all(orders, outcomes, journal)
    }

    // The lot at a place, with its collateral value.
    pub fn lot(&self, place: u64) -> Result<Lot, Cause>
        ensures { result ≡ lot_read (view self.now.holder.book) place }
    {
        self.holder.book.lot(place)
    }

    pub fn exposure(&self, place: u64) -> Result<Exposure, Cause>
        ensures { result ≡ exposure_read (view self.now.holder.book) place }
    {
        self.holder.book.exposure(place)
    }

    // A pledge of the standing or the working table.
    pub fn pledge(&self, kind: Kind, lot: u64, exposure: u64) -> Result<u64, Cause>
        ensures { result ≡ pledge_read (view self.now.holder.book) kind lot exposure }
    {
        self.holder.book.pledge(kind, lot, exposure)
    }

    // Ends the session: an open run is abandoned, and its number returned.
    pub fn end(self) -> (B, Option<u32>)
        ensures binder { result.0 ≡ self.binder }
        ensures run { result.1 ≡ run_open (view self.holder.book) }
    {
        let Session {
            mut holder,
            binder,
            card: _,
        } = self;
        let run = holder.book.open_run();
        let _ = holder.abandon();
        let Holder { book: _, slip } = holder;
        match slip {
            Some(_slip) => unreachable!(),
            None => (binder, run),
        }
    }
}
