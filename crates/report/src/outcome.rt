// What came of a line, in words.

ghost use Rattle.std.specs.Prelude.{◌≡◌};
ghost use Rattle.cause.specs.Numbers.{number as listed};
ghost use Rattle.report.specs.Reasons.{cause_of};

use crate::reason::Reason;
use std::error::Error;
use std::fmt;

#[derive(Clone, Copy, PartialEq, Eq, Debug)]
pub struct Refusal {
    // the first point at fault, of a refused page
    pub point: Option<usize>,
    pub reason: Reason,
}

impl Refusal {
    // The number of the cause.
    pub fn number(&self) -> u8
        ensures { result ≡ listed (cause_of self.now.reason) }
    {
        self.reason.cause().number()
    }
}

// By hand and not by thiserror, since only some refusals name a point.
impl fmt::Display for Refusal {
    fn fmt<W: fmt::Write>(&self, f: &mut fmt::Formatter<W>) -> fmt::Result {
        write!(f, "refused {}", self.number())?;
        if let Some(point) = self.point {
            write!(f, " at point {point}")?;
        }
        write!(f, ": {}", self.reason)
    }
}

impl Error for Refusal {}

#[derive(Clone, Copy, PartialEq, Eq, Debug)]
pub enum Answer {
    Opened,
    Points(usize),
    Value(u64),
}

impl fmt::Display for Answer {
    fn fmt<W: fmt::Write>(&self, f: &mut fmt::Formatter<W>) -> fmt::Result {
        match self {
            Answer::Opened => f.write_str("opened"),
            Answer::Points(1) => f.write_str("1 point"),
            Answer::Points(points) => write!(f, "{points} points"),
            Answer::Value(value) => write!(f, "collateral value {value}"),
        }
    }
}

// A line by its first word and the place, class or number that it names.
#[derive(Clone, Copy, PartialEq, Eq, Debug)]
pub enum Subject {
    Book(u16),
    Page(u64),
    Add(u64),
}

impl fmt::Display for Subject {
    fn fmt<W: fmt::Write>(&self, f: &mut fmt::Formatter<W>) -> fmt::Result {
        match self {
            Subject::Book(number) => write!(f, "book {number}"),
            Subject::Page(class) => write!(f, "page {class}"),
            Subject::Add(place) => write!(f, "add {place}"),
        }
    }
}

#[derive(Clone, Copy, PartialEq, Eq, Debug)]
pub struct Outcome {
    pub subject: Subject,
    pub answer: Result<Answer, Refusal>,
}

impl fmt::Display for Outcome {
    fn fmt<W: fmt::Write>(&self, f: &mut fmt::Formatter<W>) -> fmt::Result {
        match self.answer {
            Ok(answer) => write!(f, "{}: {answer}", self.subject),
            Err(refusal) => write!(f, "{}: {refusal}", self.subject),
        }
    }
}
