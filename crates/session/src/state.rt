// A day of one book, and what each line does to it.

ghost use Rattle.std.specs.Prelude.{◌≡◌, ℕ, List, [], None, IfOk, MatchOption, MatchResult};
ghost use Rattle.curve.specs.Card.{Loaded, Unloaded};
ghost use Rattle.report.specs.Reasons.{cause_of};
ghost use Rattle.script.specs.Says.{Says};
ghost use Rattle.script.specs.Words.{Worded};
ghost use Rattle.session.specs.Adding.{Added, Unadded};
ghost use Rattle.session.specs.Refusing.{Names};

use cause::Cause;
use curve::card::{Card, CardFault};
use curve::lot::{Lot, Terms};
use report::outcome::{Answer, Outcome, Refusal, Subject};
use report::reason::Reason;
use script::bad::{BadLine, Expected, Unread};
use script::line::Line;
use script::read::read;
use std::alloc::Global;

// How far the day has come, and the number of its book.
#[derive(Clone, Copy, PartialEq, Eq, Debug)]
enum Stage {
    // no book yet
    Shut,
    // the book is open, and no call was made
    SetUp(u16),
    Called(u16),
}

// A bad line where an order was read that has no place there.
fn misplaced(expected: Expected, found: &'static str) -> BadLine<'static> {
    let found = Some(found);
    BadLine { expected, found }
}

impl Stage {
    ghost use Rattle.session.specs.Playing.{Moves};

    // How far an order moves the day on, if it has a place there.
    fn after(self, line: &Line) -> Result<Stage, BadLine<'static>>
        ensures { IfOk result (λ s. Moves self line.now s) }
    {
        match (self, line) {
            (Stage::Shut, Line::Book(number)) => Ok(Stage::SetUp(*number)),
            (Stage::SetUp(number), Line::Page(..)) => Ok(Stage::SetUp(number)),
            (Stage::SetUp(number) | Stage::Called(number), Line::Add(..)) => {
                Ok(Stage::Called(number))
            }
            (Stage::Shut, Line::Page(..)) => Err(misplaced(Expected::BookFirst, "page")),
            (Stage::Shut, Line::Add(..)) => Err(misplaced(Expected::BookFirst, "add")),
            (_, Line::Book(_)) => Err(misplaced(Expected::BookOnce, "book")),
            (Stage::Called(_), Line::Page(..)) => Err(misplaced(Expected::SetUpFirst, "page")),
        }
    }
}

// The stage of the day, the curve card, and the lot places that are taken.
#[derive(Clone, Copy, PartialEq, Eq, Debug)]
pub struct Session {
    stage: Stage,
    card: Card,
    taken: [bool; 64],
}

impl Session {
    ghost use Rattle.report.specs.declared.outcome.Answer.TheVariants.{Points, Value};
    ghost use Rattle.session.specs.Playing.{New, Plays, curves};

    // No book yet, a blank card, and every place free.
    pub fn new() -> Session
        ensures { New result }
    {
        Session {
            stage: Stage::Shut,
            card: Card::blank(),
            taken: [false; 64],
        }
    }

    // Adds a lot with its collateral value. Of stage, card and places each function here changes some, and says which stay.
    fn add(&mut self, place: u64, terms: &Terms) -> Result<Lot, Cause>
        ensures stage { self.new.stage ≡ self.old.stage }
        ensures card { self.new.card ≡ self.old.card }
        ensures cases { MatchResult result
            (λ l. Added self.old.taken self.new.taken (curves self.old) place terms.now l)
            (λ e. Unadded self.old.taken (curves self.old) place terms.now e × (self.new.taken ≡ self.old.taken)) }
    {
        let at = place as usize;
        match self.taken.get(at) {
            None => return Err(Cause::PlaceOutside),
            Some(true) => return Err(Cause::PlaceTaken),
            Some(false) => {}
        }
        let lot = terms.price(&self.card)?;
        self.taken[at] = true;
        Ok(lot)
    }

    // The answer to a page: the number of its points, or its refusal in words.
    fn load(&mut self, class: u64, page: &[u8]) -> Result<Answer, Refusal>
        ensures stage { self.new.stage ≡ self.old.stage }
        ensures taken { self.new.taken ≡ self.old.taken }
        ensures cases { MatchResult result
            (λ a. ((n : ℕ) × (a ≡ Points n) × Loaded page.now class (curves self.old) (curves self.new) n))
            (λ r. ((f : CardFault) × Unloaded page.now class f × Names r f × (self.new.card ≡ self.old.card))) }
    {
        let points = self
            .card
            .load(class, page)
            .map_err(|fault| page_refusal(fault, page))?;
        Ok(Answer::Points(points))
    }

    // The answer to a lot: its collateral value, or its refusal in words.
    fn add_lot(&mut self, place: u64, terms: &Terms) -> Result<Answer, Refusal>
        ensures stage { self.new.stage ≡ self.old.stage }
        ensures card { self.new.card ≡ self.old.card }
        ensures cases { MatchResult result
            (λ a. ((l : Lot) × (a ≡ Value l.worth) × Added self.old.taken self.new.taken (curves self.old) place terms.now l))
            (λ r. Unadded self.old.taken (curves self.old) place terms.now (cause_of r.reason) × (r.point ≡ None) × (self.new.taken ≡ self.old.taken)) }
    {
        let lot = self
            .add(place, terms)
            .map_err(|cause| lot_refusal(cause, terms))?;
        Ok(Answer::Value(lot.worth))
    }

    // Plays an order.
    fn obey(&mut self, line: Line) -> Result<Outcome, BadLine<'static>>
        ensures { MatchResult result
            (λ o. Plays self.old self.new line o)
            (λ _. self.new ≡ self.old) }
    {
        self.stage = self.stage.after(&line)?;
        match line {
            Line::Book(number) => Ok(Outcome {
                subject: Subject::Book(number),
                answer: Ok(Answer::Opened),
            }),
            Line::Page(class, page) => Ok(Outcome {
                subject: Subject::Page(class),
                answer: self.load(class, page.as_slice()),
            }),
            Line::Add(place, terms) => Ok(Outcome {
                subject: Subject::Add(place),
                answer: self.add_lot(place, &terms),
            }),
        }
    }

    // Plays a line: its outcome, if it has one. A bad line does nothing.
    pub fn play<'a>(&mut self, heap: Global, text: &'a str) -> Result<Option<Outcome>, Unread<'a>>
        ensures { MatchResult result
            (λ o. MatchOption o
            (Worded text.now [] × (self.new ≡ self.old))
            (λ outcome. ((ws : List (List ℕ)) × (l : Line) × Worded text.now ws × Says ws l × Plays self.old self.new l outcome)))
            (λ _. self.new ≡ self.old) }
    {
        let Some(line) = read(heap, text)? else {
            return Ok(None);
        };
        let outcome = self.obey(line)?;
        Ok(Some(outcome))
    }
}

// A refused page or class in words.
fn page_refusal(fault: CardFault, page: &[u8]) -> Refusal
    ensures { Names result fault }
{
    match fault {
        CardFault::Page(fault, _) => Refusal {
            point: Some(fault.point),
            reason: Reason::of_page(fault, page),
        },
        CardFault::Class(_) => Refusal {
            point: None,
            reason: Reason::ClassLarge,
        },
    }
}

// A refused lot in words.
fn lot_refusal(cause: Cause, terms: &Terms) -> Refusal
    ensures cause { cause_of result.reason ≡ cause }
    ensures point { result.point ≡ None }
{
    Refusal {
        point: None,
        reason: Reason::of_lot(cause, terms),
    }
}
