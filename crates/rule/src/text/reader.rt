// The reader of a rule text.

ghost use Rattle.std.specs.Prelude.{◌≡◌, ◌+◌, ◌<◌, ◌≤◌, true, false, ◌&&◌, [], ◌∷◌, ◌++◌, length, ◌==◌};
ghost use Rattle.grammar.specs.Grammar.{longest, deepest, most_steps};
ghost use Rattle.rule.specs.Machine.{bit, wait, weight, closed, leads, follows, shut, next, settle as settled, start};
ghost use Rattle.rule.specs.Marks.{mark_of, opens, steps};
ghost use Rattle.rule.specs.Reads.{Becomes, judgement, ends, Taken, Concluded, Read};
ghost use Rattle.rule.specs.Refusing.{expects, is_follow, large};
ghost use Rattle.rule.specs.Views.{state, waiting, code as written, HasRoom};

use crate::fault::TextFault;
use crate::held::{MOST_STEPS, Rule};
use crate::steps::Step;
use crate::text::{Follow, Lead, Level, Mark, Mode, is_too_long};
use arrayvec::ArrayVec;
use cause::Cause;
use grammar::{Field, Sign};

const DEEPEST: usize = 16;

// Where it stands, what waits outside each open bracket, what it has written, how many steps it has seen,
// and where the last number began.
#[derive(Drop)]
pub struct Reader {
    mode: Mode,
    level: Level,
    outer: ArrayVec<Level, DEEPEST>,
    rule: Rule,
    count: usize,
    digit: usize,
}

impl Reader {
    fn new() -> Reader
        ensures place { state result ≡ start }
        ensures count { (result.count ≡ 0) × (result.digit ≡ 0) }
    {
        Reader {
            mode: Mode::Want,
            level: Level::default(),
            outer: ArrayVec::new(),
            rule: Rule::blank(),
            count: 0,
            digit: 0,
        }
    }

    // Refuses a mark that does not fit.
    fn admit(&self, mark: Mark, place: usize) -> Result<(), TextFault>
        ensures { result ≡ judgement self.now mark place }
    {
        let depth = self.outer.len();
        let unexpected = !self.mode.expects(mark, depth);
        TextFault::refuse_if(unexpected, Cause::ByteUnexpected, place)?;
        let large = self.mode.is_outgrown(mark);
        TextFault::refuse_if(large, Cause::NumberLarge, self.digit)?;
        let deep = mark.opens() && depth == DEEPEST;
        TextFault::refuse_if(deep, Cause::BracketDeep, place)?;
        let late = mark.is_step() && self.count == MOST_STEPS;
        TextFault::refuse_if(late, Cause::StepsMany, place)
    }

    // A factor is complete.
    fn complete(&mut self, level: Level)
        requires { HasRoom self.old.rule (bit level.negated + bit level.both) }
        ensures { Becomes self.old self.new (closed level (waiting self.old.outer) (written self.old.rule)) }
    {
        self.rule.finish(level);
        self.level = level.rested();
        self.mode = Mode::Done;
    }

    // A test is complete.
    fn test(&mut self, field: Field, sign: Sign, number: u16)
        requires { HasRoom self.old.rule (1 + (bit self.old.level.negated + bit self.old.level.both)) }
        ensures { Becomes self.old self.new (closed self.old.level (waiting self.old.outer) (written self.old.rule ++ Step.Test field sign number ∷ [])) }
    {
        self.rule.push(Step::Test(field, sign, number));
        self.complete(self.level);
    }

    // A factor begins.
    fn lead(&mut self, lead: Lead)
        requires want { self.old.mode ≡ Mode.Want }
        requires deep { length (waiting self.old.outer) + bit (opens (Mark.Lead lead)) ≤ deepest }
        ensures { Becomes self.old self.new (leads self.old.level (waiting self.old.outer) (written self.old.rule) lead) }
    {
        match lead {
            Lead::Letter(field) => self.mode = Mode::Named(field),
            Lead::Not => self.level = self.level.flipped(),
            Lead::Open => {
                self.outer.push(self.level);
                self.level = Level::default();
            }
        }
    }

    // The innermost bracket closes, and the rule in it is a factor.
    fn close(&mut self)
        requires open { 0 < length (waiting self.old.outer) }
        requires room { wait (waiting self.old.outer) + length (written self.old.rule) ≤ most_steps }
        ensures { Becomes self.old self.new (shut (waiting self.old.outer) (written self.old.rule)) }
    {
        if let Some(outer) = self.outer.pop() {
            self.complete(outer);
        }
    }

    // A factor is followed.
    fn follow(&mut self, follow: Follow)
        requires open { is_follow (Mark.Follow follow) (length (waiting self.old.outer)) ≡ true }
        requires room { bit self.old.level.either + wait (waiting self.old.outer) + length (written self.old.rule) ≤ most_steps }
        ensures { Becomes self.old self.new (follows self.old.level (waiting self.old.outer) (written self.old.rule) follow) }
    {
        match follow {
            Follow::And => {
                self.level = self.level.anded();
                self.mode = Mode::Want;
            }
            Follow::Or => {
                self.rule.end(self.level);
                self.level = Level::ored();
                self.mode = Mode::Want;
            }
            Follow::Close => {
                self.rule.end(self.level);
                self.close();
            }
        }
    }

    // The mark is taken.
    fn advance(&mut self, mark: Mark)
        requires lived { expects self.old.mode mark (length (waiting self.old.outer)) ≡ true }
        requires small { large self.old.mode mark ≡ false }
        requires deep { length (waiting self.old.outer) + bit (opens mark) ≤ deepest }
        requires room { weight (state self.old) + bit (steps mark) ≤ most_steps }
        ensures { Becomes self.old self.new (next (state self.old) mark) }
    {
        match (self.mode, mark) {
            (Mode::Want, Mark::Lead(lead)) => self.lead(lead),
            (Mode::Named(field), Mark::Compare(sign)) => self.mode = Mode::Signed(field, sign),
            (Mode::Signed(field, sign), Mark::Digit(0)) => self.test(field, sign, 0),
            (Mode::Signed(field, sign), Mark::Digit(digit)) => {
                self.mode = Mode::Counting(field, sign, u16::from(digit));
            }
            (Mode::Counting(field, sign, value), Mark::Digit(digit)) => {
                self.mode = Mode::Counting(field, sign, 10 * value + u16::from(digit));
            }
            (Mode::Counting(field, sign, value), Mark::Follow(follow)) => {
                self.test(field, sign, value);
                self.follow(follow);
            }
            (Mode::Done, Mark::Follow(follow)) => self.follow(follow),
            _ => unreachable!(),
        }
    }

    // Takes the byte at the place.
    fn take(&mut self, byte: u8, place: usize) -> Result<(), TextFault>
        requires near { place ≤ longest }
        requires deep { length (waiting self.old.outer) ≤ deepest }
        requires few { self.old.count ≤ most_steps }
        requires room { weight (state self.old) ≤ self.old.count }
        ensures { Taken self.old self.new (mark_of byte) place result }
    {
        let mark = Mark::from(byte);
        self.admit(mark, place)?;
        self.advance(mark);
        self.count += usize::from(mark.is_step());
        self.digit = mark.number_place(place, self.digit);
        Ok(())
    }

    // Whether the text may end here.
    fn may_end(&self) -> bool
        ensures { result ≡ (ends self.now.mode && length (waiting self.now.outer) == 0) }
    {
        matches!(self.mode, Mode::Counting(_, _, _) | Mode::Done) && self.outer.is_empty()
    }

    // A number that is being read is complete.
    fn settle(&mut self)
        requires { weight (state self.old) ≤ most_steps }
        ensures { state self.new ≡ settled (state self.old) }
    {
        if let Mode::Counting(field, sign, value) = self.mode {
            self.test(field, sign, value);
        }
    }

    // Completes the rule where the text ends. The reader is lent, since to move one copies its steps once more.
    fn conclude(&mut self)
        requires whole { ends self.old.mode ≡ true }
        requires room { weight (state self.old) ≤ most_steps }
        ensures { Concluded (state self.old) (waiting self.old.outer) (written self.new.rule) }
    {
        self.settle();
        self.rule.end(self.level);
    }
}

// The rule that the text is, or the text's least fault.
pub fn read(text: &[u8]) -> Result<Rule, TextFault>
    ensures { Read text.now result }
{
    TextFault::refuse_if(is_too_long(text), Cause::TextLong, 0)?;
    let mut reader = Reader::new();
    for (place, byte) in text.iter().enumerate() {
        reader.take(*byte, place)?;
    }
    TextFault::refuse_if(!reader.may_end(), Cause::ByteUnexpected, text.len())?;
    reader.conclude();
    Ok(reader.rule)
}
