// Texts made from a seed: the rule's outcome and answers against those of the second method.

ghost use Rattle.std.specs.Prelude.{◌≤◌};

use crate::descent::{judged, whole};
use crate::{Outcome, Part, Trial, load, repeat};
use grammar::Description;
use rule::Rule;
use std::alloc::{AllocError, Global};
use std::collections::BTreeSet;
use std::io;
use tally::Tally;

const TEXTS: u32 = 12000;

// A xorshift generator of pseudo-random numbers, of this trial alone: the texts that are tried are those of its
// sequence.
#[derive(Clone, Copy)]
struct Seed {
    state: u64,
}

impl Seed {
    fn next(&mut self) -> u64 {
        let mut x = self.state;
        x ^= x.wrapping_shl(13);
        x ^= x.wrapping_shr(7);
        x ^= x.wrapping_shl(17);
        self.state = x;
        x.wrapping_shr(11)
    }

    fn below(&mut self, bound: u64) -> u64
        ensures { result ≤ bound }
    {
        if bound == 0 { 0 } else { self.next() % bound }
    }

    // Whether an event of so many in a hundred happens.
    fn chance(&mut self, percent: u64) -> bool {
        self.below(100) < percent
    }

    fn pick(&mut self, bytes: &[u8]) -> u8 {
        let i = self.below(bytes.len() as u64) as usize;
        bytes.get(i).copied().unwrap_or(b'c')
    }

    fn lot(&mut self) -> Description {
        Description {
            class: (self.next() % 8) as u16,
            rating: (self.next() % 23) as u16,
            months: (self.next() % 1201) as u16,
            issuer: (self.next() % 256) as u16,
        }
    }
}

// Bytes that a rule may have, and a few that none has.
const BYTES: [u8; 28] = *b"crmi=<>0123456789()!&|!&|(x ";

fn scattered(heap: Global, seed: &mut Seed, most: u64) -> Result<Vec<u8>, AllocError> {
    let mut text = Vec::new(heap);
    for _ in 0..seed.below(most) {
        text.push(seed.pick(&BYTES))?;
    }
    Ok(text)
}

// A number, now and then one near or over the limit.
fn write_number(seed: &mut Seed, text: &mut Vec<u8>) -> Result<(), AllocError> {
    if seed.chance(10) {
        text.push(b'0')?;
        return Ok(());
    }
    if seed.chance(4) {
        text.extend_from_slice(b"6553")?;
        text.push(seed.pick(b"4567"))?;
        return Ok(());
    }
    text.push(seed.pick(b"123456789"))?;
    for _ in 0..seed.below(4) {
        text.push(seed.pick(b"0123456789"))?;
    }
    Ok(())
}

fn write_test(seed: &mut Seed, text: &mut Vec<u8>) -> Result<(), AllocError> {
    text.push(seed.pick(b"crmi"))?;
    text.push(seed.pick(b"=<>"))?;
    write_number(seed, text)
}

// A rule, a term or a factor. `fuel` bounds the depth.
fn write(seed: &mut Seed, text: &mut Vec<u8>, part: Part, fuel: u32) -> Result<(), AllocError> {
    if fuel == 0 {
        return write_test(seed, text);
    }
    if let Some((joint, inner)) = part.joint() {
        write(seed, text, inner, fuel - 1)?;
        for _ in 0..seed.below(3) {
            text.push(joint)?;
            write(seed, text, inner, fuel - 1)?;
        }
        return Ok(());
    }
    if seed.chance(15) {
        text.push(b'!')?;
        return write(seed, text, Part::Factor, fuel - 1);
    }
    if seed.chance(25) {
        text.push(b'(')?;
        write(seed, text, Part::Rule, fuel - 1)?;
        text.push(b')')?;
        return Ok(());
    }
    write_test(seed, text)
}

// A rule within so many brackets and after so many `!`.
fn wrapped(heap: Global, seed: &mut Seed, fuel: u32) -> Result<Vec<u8>, AllocError> {
    let mut text = Vec::new(heap);
    let brackets = if seed.chance(25) { seed.below(20) } else { 0 };
    let nots = if seed.chance(25) { seed.below(70) } else { 0 };
    repeat(&mut text, b"!", nots as usize)?;
    repeat(&mut text, b"(", brackets as usize)?;
    write(seed, &mut text, Part::Rule, fuel)?;
    repeat(&mut text, b")", brackets as usize)?;
    Ok(text)
}

// The text with a byte changed, put in or left out.
fn damaged(heap: Global, seed: &mut Seed, text: &[u8]) -> Result<Vec<u8>, AllocError> {
    let place = seed.below(text.len() as u64) as usize;
    // The way, drawn as a number: changed, put in, left out.
    let way = seed.below(3);
    let (before, rest) = text.split_at(place);
    let mut other = Vec::from_slice(heap, before)?;
    let Some((byte, after)) = rest.split_first() else {
        return Ok(other);
    };
    match way {
        0 => other.push(seed.pick(&BYTES))?,
        1 => other.extend_from_slice(&[*byte, seed.pick(&BYTES)])?,
        _ => {}
    }
    other.extend_from_slice(after)?;
    Ok(other)
}

// Tests within many brackets, up to some length near the longest.
fn long_text(heap: Global, seed: &mut Seed) -> Result<Vec<u8>, AllocError> {
    let mut text = Vec::new(heap);
    let enough = 850 + seed.below(200) as usize;
    // Bounded, so that it ends: sixty-four tests are longer than any text needs.
    for _ in 0..64 {
        let depth = 14 + seed.below(3) as usize;
        repeat(&mut text, b"(", depth)?;
        write_test(seed, &mut text)?;
        repeat(&mut text, b")", depth)?;
        if text.len() >= enough {
            break;
        }
        text.push(seed.pick(b"&|"))?;
    }
    Ok(text)
}

// In turn: scattered bytes, a rule, a rule with a fault in it, a larger rule, a long one.
fn text_of(heap: Global, seed: &mut Seed, turn: u32) -> Result<Vec<u8>, AllocError> {
    match turn % 5 {
        0 => scattered(heap, seed, 24),
        1 => wrapped(heap, seed, 6),
        2 => {
            let text = wrapped(heap, seed, 6)?;
            damaged(heap, seed, text.as_slice())
        }
        3 => wrapped(heap, seed, 12),
        _ => long_text(heap, seed),
    }
}

// The answers for some lots.
fn same_answers(seed: &mut Seed, rule: &Rule, text: &[u8]) -> bool {
    (0..8).all(|_| {
        let lot = seed.lot();
        whole(text, lot) == Ok(rule.ask(lot))
    })
}

// One text in both ways.
fn tried<'a>(seed: &mut Seed, text: &'a [u8]) -> Trial<'a> {
    let mut rule = Rule::blank();
    let want = judged(text);
    let got = load(&mut rule, text);
    let right = got == want && (want.is_err() || same_answers(seed, &rule, text));
    Trial {
        text,
        want,
        got,
        right,
    }
}

// The number of a fault's cause; none of an accepted text.
fn kind(outcome: Outcome) -> Option<u8> {
    outcome.err().map(|fault| fault.number)
}

const KINDS: [Option<u8>; 6] = [None, Some(5), Some(6), Some(7), Some(8), Some(9)];

pub fn compare(rt: &HostRuntime) -> io::Result<()> {
    let mut seed = Seed {
        state: 0x9e37_79b9_7f4a_7c15,
    };
    let mut texts = Tally::new();
    let mut met = BTreeSet::new(rt.alloc());
    for turn in 0..TEXTS {
        let text = text_of(rt.alloc(), &mut seed, turn)?;
        let trial = tried(&mut seed, text.as_slice());
        met.insert(kind(trial.got))?;
        trial.note(rt, &mut texts)?;
    }
    println!(rt; "made texts: {texts}")?;
    let all = KINDS.iter().all(|kind| met.contains(kind));
    println!(rt; "every outcome met: {all}")
}
