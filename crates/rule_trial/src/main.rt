// Tries the reading and the asking of rules in two ways: on a table of texts whose outcomes were
// worked out by hand from the rules of rule texts, and against a second method on many texts that
// are made from a seed.
#![tactic(auto)]

mod descent;
mod made;
mod table;

use rule::{Rule, TextFault};
use std::alloc::AllocError;
use std::{fmt, io};
use tally::Tally;

// Where a text is at fault, and the number that the cause is known by. Of two faults the lesser is the
// one that is reported.
#[derive(Clone, Copy, PartialEq, Eq, PartialOrd, Ord, Debug)]
struct Fault {
    place: usize,
    number: u8,
}

impl From<TextFault> for Fault {
    fn from(fault: TextFault) -> Fault {
        Fault {
            place: fault.place,
            number: fault.cause.number(),
        }
    }
}

impl fmt::Display for Fault {
    fn fmt<W: fmt::Write>(&self, f: &mut fmt::Formatter<W>) -> fmt::Result {
        let number = self.number;
        let place = self.place;
        write!(f, "{number} at {place}")
    }
}

// What becomes of a text: it is accepted, or refused.
type Outcome = Result<(), Fault>;

fn load(rule: &mut Rule, text: &[u8]) -> Outcome {
    Ok(rule.load(text)?)
}

// What rules are made of: rules of terms, terms of factors.
#[derive(Clone, Copy, PartialEq, Eq, Debug)]
enum Part {
    Rule,
    Term,
    Factor,
}

impl Part {
    // What stands between the parts of a rule and of a term, and what these are.
    fn joint(self) -> Option<(u8, Part)> {
        match self {
            Part::Rule => Some((b'|', Part::Term)),
            Part::Term => Some((b'&', Part::Factor)),
            Part::Factor => None,
        }
    }
}

// One text that was tried.
#[derive(Clone, Copy)]
struct Trial<'a> {
    text: &'a [u8],
    want: Outcome,
    got: Outcome,
    right: bool,
}

impl<'a> Trial<'a> {
    // Counts it, and prints it if it came out otherwise.
    fn note(&self, rt: &HostRuntime, tally: &mut Tally) -> io::Result<()> {
        tally.note(self.right);
        if self.right {
            return Ok(());
        }
        println!(rt; "{self}")
    }
}

impl<'a> fmt::Display for Trial<'a> {
    fn fmt<W: fmt::Write>(&self, f: &mut fmt::Formatter<W>) -> fmt::Result {
        for byte in self.text {
            let shown = if byte.is_ascii_graphic() || *byte == b' ' {
                *byte as char
            } else {
                '?'
            };
            write!(f, "{shown}")?;
        }
        // an accepted text is shown as 0 at 0
        let accepted = Fault {
            place: 0,
            number: 0,
        };
        let want = self.want.err().unwrap_or(accepted);
        let got = self.got.err().unwrap_or(accepted);
        write!(f, ": {want} expected, {got} found")
    }
}

fn repeat(text: &mut Vec<u8>, part: &[u8], times: usize) -> Result<(), AllocError> {
    for _ in 0..times {
        text.extend_from_slice(part)?;
    }
    Ok(())
}

fn main(rt: HostRuntime) -> io::Result<()> {
    table::outcomes(&rt)?;
    table::answers(&rt)?;
    table::kept(&rt)?;
    made::compare(&rt)
}
