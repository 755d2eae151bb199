// The steps that a rule is written down as. They run over a stack of answers: a test puts an answer
// on it, the others replace the last one or two.

ghost use Rattle.std.specs.Prelude.{◌≡◌, ◌/◌, ◌^◌, ◌<◌};
ghost use Rattle.grammar.specs.Grammar.{field as asked, compares};
ghost use Rattle.rule.specs.Stack.{act, onto, top};

use grammar::{Description, Field, Sign};
use std::marker::Model;

#[derive(Clone, Copy, PartialEq, Eq, Debug)]
pub enum Step {
    Test(Field, Sign, u16),
    Negate,
    Both,
    Either,
}

// The answers so far are the bits of a number, the last one lowest.
#[derive(Drop)]
pub struct Answers {
    bits: u64,
}

impl Model for Answers {
    ghost use Rattle.std.specs.Prelude.{ℕ};

    ghost Value = { ℕ };

    ghost view = { λ a. a.bits };
}

impl Answers {
    pub fn none() -> Answers
        ensures { result ≡ 0 }
    {
        Answers { bits: 0 }
    }

    pub fn top(&self) -> bool
        ensures { result ≡ top self.now }
    {
        self.bits % 2 == 1
    }

    fn push(&mut self, answer: bool)
        requires { self.old < 2 ^ 63 }
        ensures { self.new ≡ onto answer self.old }
    {
        self.bits = self.bits * 2 + u64::from(answer);
    }

    fn pop(&mut self) -> bool
        ensures answer { result ≡ top self.old }
        ensures others { self.new ≡ self.old / 2 }
    {
        let answer = self.top();
        self.bits /= 2;
        answer
    }

    // The last two answers, in the order in which they were given.
    fn pop_two(&mut self) -> (bool, bool)
        ensures last { result.1 ≡ top self.old }
        ensures before { result.0 ≡ top (self.old / 2) }
        ensures others { self.new ≡ self.old / 2 / 2 }
    {
        let last = self.pop();
        let before = self.pop();
        (before, last)
    }
}

// `Field` and `Sign` are of the crate grammar, so these two can't be methods of theirs, and a trait of
// one method each would be no plainer.
fn field_of(field: Field, lot: Description) -> u16
    ensures { result ≡ asked field lot }
{
    match field {
        Field::Class => lot.class,
        Field::Rating => lot.rating,
        Field::Months => lot.months,
        Field::Issuer => lot.issuer,
    }
}

fn compare(sign: Sign, a: u16, b: u16) -> bool
    ensures { result ≡ compares sign a b }
{
    match sign {
        Sign::Equal => a == b,
        Sign::Less => a < b,
        Sign::Greater => a > b,
    }
}

impl Step {
    pub fn run(self, lot: Description, answers: &mut Answers)
        requires { answers.old < 2 ^ 63 }
        ensures { answers.new ≡ act lot self answers.old }
    {
        match self {
            Step::Test(field, sign, number) => {
                answers.push(compare(sign, field_of(field, lot), number));
            }
            Step::Negate => {
                let last = answers.pop();
                answers.push(!last);
            }
            Step::Both => {
                let (before, last) = answers.pop_two();
                answers.push(before && last);
            }
            Step::Either => {
                let (before, last) = answers.pop_two();
                answers.push(before || last);
            }
        }
    }
}
