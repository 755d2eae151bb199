// The reading of a rule text: what its bytes are, where the reader stands, and what it may refuse a mark
// for. The reader itself stands in the module below.

ghost use Rattle.std.specs.Prelude.{◌≡◌, ◌≤◌, length, nat_lt};
ghost use Rattle.rule.specs.Marks.{mark_of, steps, opens};
ghost use Rattle.rule.specs.Machine.{rested as after_factor, anded as after_and, ored as after_or, flipped as after_not};
ghost use Rattle.grammar.specs.Grammar.{longest};
ghost use Rattle.rule.specs.Refusing.{expects as expected, is_follow, large, first_digit};

use grammar::{Field, Sign};

pub mod reader;

const LONGEST: usize = 1024;

const LARGEST: u32 = 65535;

// What a factor begins with.
#[derive(Clone, Copy, PartialEq, Eq, Debug)]
pub enum Lead {
    Letter(Field),
    Not,
    Open,
}

// What may follow a factor.
#[derive(Clone, Copy, PartialEq, Eq, Debug)]
pub enum Follow {
    And,
    Or,
    Close,
}

#[derive(Clone, Copy, PartialEq, Eq, Debug)]
pub enum Mark {
    Lead(Lead),
    Compare(Sign),
    Digit(u8),
    Follow(Follow),
    Other,
}

impl From<u8> for Mark {
    ghost from_gives = { λ byte mark. mark ≡ mark_of byte };

    fn from(byte: u8) -> Mark {
        match byte as char {
            'c' => Mark::Lead(Lead::Letter(Field::Class)),
            'r' => Mark::Lead(Lead::Letter(Field::Rating)),
            'm' => Mark::Lead(Lead::Letter(Field::Months)),
            'i' => Mark::Lead(Lead::Letter(Field::Issuer)),
            '!' => Mark::Lead(Lead::Not),
            '(' => Mark::Lead(Lead::Open),
            '=' => Mark::Compare(Sign::Equal),
            '<' => Mark::Compare(Sign::Less),
            '>' => Mark::Compare(Sign::Greater),
            '0'..='9' => Mark::Digit(byte - b'0'),
            '&' => Mark::Follow(Follow::And),
            '|' => Mark::Follow(Follow::Or),
            ')' => Mark::Follow(Follow::Close),
            _ => Mark::Other,
        }
    }
}

impl Mark {
    // Letters, `!`, `&` and `|` count as steps.
    fn is_step(self) -> bool
        ensures { result ≡ steps self }
    {
        matches!(
            self,
            Mark::Lead(Lead::Letter(_) | Lead::Not) | Mark::Follow(Follow::And | Follow::Or)
        )
    }

    fn opens(self) -> bool
        ensures { result ≡ opens self }
    {
        self == Mark::Lead(Lead::Open)
    }

    // A closing bracket wants an open one.
    fn can_follow(self, depth: usize) -> bool
        ensures { result ≡ is_follow self depth }
    {
        match self {
            Mark::Follow(Follow::And | Follow::Or) => true,
            Mark::Follow(Follow::Close) => depth > 0,
            _ => false,
        }
    }

    // Where the last number begins: after a sign.
    fn number_place(self, place: usize, digit: usize) -> usize
        requires { place ≤ longest }
        ensures { result ≡ first_digit self place digit }
    {
        match self {
            Mark::Compare(_) => place + 1,
            _ => digit,
        }
    }
}

// What is expected next: a factor, the sign after a letter, the number after a sign, more digits or
// what follows a factor, or only what follows a factor.
#[derive(Clone, Copy, PartialEq, Eq, Debug)]
pub enum Mode {
    Want,
    Named(Field),
    Signed(Field, Sign),
    Counting(Field, Sign, u16),
    Done,
}

impl Mode {
    // Whether some rule goes on with the mark.
    fn expects(self, mark: Mark, depth: usize) -> bool
        ensures { result ≡ expected self mark depth }
    {
        match (self, mark) {
            (Mode::Want, Mark::Lead(_))
            | (Mode::Named(_), Mark::Compare(_))
            | (Mode::Signed(_, _) | Mode::Counting(_, _, _), Mark::Digit(_)) => true,
            (Mode::Counting(_, _, _) | Mode::Done, _) => mark.can_follow(depth),
            _ => false,
        }
    }

    // Whether the mark makes the number too large.
    fn is_outgrown(self, mark: Mark) -> bool
        ensures { result ≡ large self mark }
    {
        match (self, mark) {
            (Mode::Counting(_, _, value), Mark::Digit(digit)) => {
                10 * u32::from(value) + u32::from(digit) > LARGEST
            }
            _ => false,
        }
    }
}

// What waits for the factor that is being read: the terms before it, the factors before it in its
// term, and an odd number of `!`.
#[derive(Clone, Copy, PartialEq, Eq, Debug, Default)]
pub struct Level {
    pub either: bool,
    pub both: bool,
    pub negated: bool,
}

impl Level {
    fn rested(self) -> Level
        ensures { result ≡ after_factor self }
    {
        Level {
            either: self.either,
            ..Level::default()
        }
    }

    fn anded(self) -> Level
        ensures { result ≡ after_and self }
    {
        Level {
            both: true,
            ..self.rested()
        }
    }

    fn ored() -> Level
        ensures { result ≡ after_or }
    {
        Level {
            either: true,
            ..Level::default()
        }
    }

    fn flipped(self) -> Level
        ensures { result ≡ after_not self }
    {
        Level {
            negated: !self.negated,
            ..self
        }
    }
}

fn is_too_long(text: &[u8]) -> bool
    ensures { result ≡ nat_lt longest (length text.now) }
{
    text.len() > LONGEST
}
