// Texts whose outcomes were worked out by hand.

use crate::{Fault, Outcome, Trial, load, repeat};
use grammar::Description;
use rule::Rule;
use std::alloc::{AllocError, Global};
use std::io;
use tally::Tally;

// An outcome as the tables have it: accepted, or the cause's number and the place of the fault.
type Listed = Result<(), (u8, usize)>;

fn outcome(listed: Listed) -> Outcome {
    listed.map_err(|(number, place)| Fault { place, number })
}

fn lot([class, rating, months, issuer]: [u16; 4]) -> Description {
    Description {
        class,
        rating,
        months,
        issuer,
    }
}

// One text against its outcome.
fn row(rt: &HostRuntime, tally: &mut Tally, text: &[u8], want: Listed) -> io::Result<()> {
    let want = outcome(want);
    let got = load(&mut Rule::blank(), text);
    let right = got == want;
    let trial = Trial {
        text,
        want,
        got,
        right,
    };
    trial.note(rt, tally)
}

// Each kind of byte after a beginning: `a` the text is then a rule, `e` it ends too early, `u` the byte
// is unexpected.
const KINDS: [u8; 10] = *b"c=05()!&|x";

const AFTER: [(&[u8], [u8; 10]); 13] = [
    (b"", *b"euuueueuuu"),
    (b"!", *b"euuueueuuu"),
    (b"(", *b"euuueueuuu"),
    (b"c=0&", *b"euuueueuuu"),
    (b"c=0|", *b"euuueueuuu"),
    (b"c", *b"ueuuuuuuuu"),
    (b"c=", *b"uuaauuuuuu"),
    (b"c=0", *b"uuuuuuueeu"),
    (b"c=5", *b"uuaauuueeu"),
    (b"(c=", *b"uueeuuuuuu"),
    (b"(c=0", *b"uuuuuaueeu"),
    (b"(c=5", *b"uueeuaueeu"),
    (b"(c=0)", *b"uuuuuuueeu"),
];

// Numbers at their limit, one fault, and two faults in both orders.
const SHORT: [(&[u8], Listed); 20] = [
    (b"c=65535", Ok(())),
    (b"c=65536", Err((7, 2))),
    (b"r=65536", Err((7, 2))),
    (b"m<65535", Ok(())),
    (b"m<65536", Err((7, 2))),
    (b"i>65536", Err((7, 2))),
    (b"c=655350", Err((7, 2))),
    (b"", Err((6, 0))),
    (b"r<01", Err((6, 3))),
    (b"c=065536", Err((6, 3))),
    (b"(c=1", Err((6, 4))),
    (b"c=1)", Err((6, 3))),
    (b"\x80", Err((6, 0))),
    (b"c=1\xff", Err((6, 3))),
    (b"c=1&\xe2\x89\xa4", Err((6, 4))),
    (b"c\xbd1", Err((6, 1))),
    (b"m<65536&)", Err((7, 2))),
    (b")&m<65536", Err((6, 0))),
    (b"c=x&m<65536", Err((6, 2))),
    (b"m<65536x", Err((7, 2))),
];

// Three pieces, each so many times: 16 and 17 brackets, 64 and 65 steps, 1,024 and 1,025 bytes, a number of
// 400 digits; a large number, a deep bracket and a late step in both orders; and two faults at one place,
// of which the smaller number is returned.
const SIXTEEN: &[u8] = b"((((((((((((((((c=0))))))))))))))))&";

type Piece = (&'static [u8], usize);

const LONG: [([Piece; 3], Listed); 20] = [
    ([(b"(", 16), (b"c=0", 1), (b")", 16)], Ok(())),
    ([(b"(", 17), (b"c=0", 1), (b")", 17)], Err((8, 16))),
    ([(b"!", 63), (b"c=0", 1), (b"", 0)], Ok(())),
    ([(b"!", 64), (b"c=0", 1), (b"", 0)], Err((9, 64))),
    ([(b"!c=0", 1), (b"&c=0", 31), (b"", 0)], Ok(())),
    ([(b"c=0&", 32), (b"c=0", 1), (b"", 0)], Err((9, 128))),
    ([(SIXTEEN, 28), (b"((((((c=10))))))", 1), (b"", 0)], Ok(())),
    (
        [(SIXTEEN, 28), (b"((((((c=100))))))", 1), (b"", 0)],
        Err((5, 0)),
    ),
    ([(b"x", 1024), (b"", 0), (b"", 0)], Err((6, 0))),
    ([(b"x", 1025), (b"", 0), (b"", 0)], Err((5, 0))),
    ([(b"m<", 1), (b"1", 400), (b"", 0)], Err((7, 2))),
    ([(b"m<", 1), (b"0", 400), (b"", 0)], Err((6, 3))),
    ([(b"m<70000|", 1), (b"(", 17), (b"", 0)], Err((7, 2))),
    ([(b"(", 17), (b"m<70000", 1), (b"", 0)], Err((8, 16))),
    ([(b"m<70000|", 1), (b"!", 64), (b"", 0)], Err((7, 2))),
    ([(b"!", 64), (b"m<70000", 1), (b"", 0)], Err((9, 64))),
    ([(b"(", 16), (b"!", 64), (b"(", 1)], Err((8, 80))),
    ([(b"!", 65), (b"(", 17), (b"", 0)], Err((9, 64))),
    ([(b"(", 16), (b"c=0(", 1), (b"", 0)], Err((6, 19))),
    ([(b"!", 63), (b"c=0c", 1), (b"", 0)], Err((6, 66))),
];

fn joined(heap: Global, pieces: [Piece; 3]) -> Result<Vec<u8>, AllocError> {
    let mut text = Vec::new(heap);
    for (piece, times) in pieces {
        repeat(&mut text, piece, times)?;
    }
    Ok(text)
}

fn kinds(
    rt: &HostRuntime,
    tally: &mut Tally,
    beginning: &[u8],
    outcomes: [u8; 10],
) -> io::Result<()> {
    let len = beginning.len();
    for (byte, outcome) in KINDS.iter().zip(&outcomes) {
        let mut text = Vec::from_slice(rt.alloc(), beginning)?;
        text.push(*byte)?;
        let want = match *outcome {
            b'a' => Ok(()),
            b'e' => Err((6, len.saturating_add(1))),
            _ => Err((6, len)),
        };
        row(rt, tally, text.as_slice(), want)?;
    }
    Ok(())
}

fn after_beginnings(rt: &HostRuntime, tally: &mut Tally) -> io::Result<()> {
    for (beginning, outcomes) in AFTER {
        kinds(rt, tally, beginning, outcomes)?;
    }
    Ok(())
}

fn short_texts(rt: &HostRuntime, tally: &mut Tally) -> io::Result<()> {
    for (text, want) in SHORT {
        row(rt, tally, text, want)?;
    }
    Ok(())
}

fn long_texts(rt: &HostRuntime, tally: &mut Tally) -> io::Result<()> {
    for (pieces, want) in LONG {
        row(rt, tally, joined(rt.alloc(), pieces)?.as_slice(), want)?;
    }
    Ok(())
}

pub fn outcomes(rt: &HostRuntime) -> io::Result<()> {
    let mut tally = Tally::new();
    after_beginnings(rt, &mut tally)?;
    short_texts(rt, &mut tally)?;
    long_texts(rt, &mut tally)?;
    println!(rt; "texts: {tally}")
}

// A text, a lot's class, rating, months and issuer, and what the text says of it.
const ANSWERS: [(&[u8], [u16; 4], bool); 24] = [
    (b"m<10", [0, 0, 9, 0], true),
    (b"m<10", [0, 0, 10, 0], false),
    (b"m>10", [0, 0, 10, 0], false),
    (b"m>10", [0, 0, 11, 0], true),
    (b"r=3", [0, 3, 0, 0], true),
    (b"r=3", [3, 4, 3, 3], false),
    (b"i=65535", [0, 0, 0, 65535], true),
    (b"c>0", [1, 0, 0, 0], true),
    (b"c>0", [0, 9, 9, 9], false),
    (b"r<11&(m<121|i=7)", [0, 10, 120, 3], true),
    (b"r<11&(m<121|i=7)", [0, 10, 121, 3], false),
    (b"r<11&(m<121|i=7)", [0, 10, 121, 7], true),
    (b"c=1|c=2&r<5", [1, 9, 0, 0], true),
    (b"c=1|c=2&r<5", [2, 9, 0, 0], false),
    (b"c=1|c=2&r<5", [2, 4, 0, 0], true),
    (b"c=2&r<5|c=1", [1, 9, 0, 0], true),
    (b"c=2&r<5|c=1", [2, 9, 0, 0], false),
    (b"(c=1|c=2)&r<5", [1, 9, 0, 0], false),
    (b"!c=1&r>3", [1, 4, 0, 0], false),
    (b"!c=1&r>3", [2, 4, 0, 0], true),
    (b"!(c=1&r>3)", [1, 3, 0, 0], true),
    (b"!(c=1&r>3)", [1, 4, 0, 0], false),
    (b"!!c=1", [1, 0, 0, 0], true),
    (b"!!!c=1", [1, 0, 0, 0], false),
];

pub fn answers(rt: &HostRuntime) -> io::Result<()> {
    let mut tally = Tally::new();
    for (text, fields, says) in ANSWERS {
        let mut rule = Rule::blank();
        let got = load(&mut rule, text);
        let right = got.is_ok() && rule.ask(lot(fields)) == says;
        let trial = Trial {
            text,
            want: Ok(()),
            got,
            right,
        };
        trial.note(rt, &mut tally)?;
    }
    println!(rt; "answers: {tally}")
}

// A blank rule says no, and a refused text leaves the rule as it was.
pub fn kept(rt: &HostRuntime) -> io::Result<()> {
    let mut tally = Tally::new();
    let mut rule = Rule::blank();
    tally.note(!rule.ask(lot([1, 1, 1, 1])));
    tally.note(load(&mut rule, b"c=1").is_ok());
    tally.note(rule.ask(lot([1, 1, 1, 1])));
    tally.note(load(&mut rule, b"c=2&") == outcome(Err((6, 4))));
    tally.note(rule.ask(lot([1, 1, 1, 1])));
    tally.note(!rule.ask(lot([2, 1, 1, 1])));
    println!(rt; "kept: {tally}")
}
