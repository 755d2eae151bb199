// The second method: a recursive descent that works out what a rule says while it reads it, and the
// faults of a text each by a pass of its own, of which the least is taken.

use crate::{Fault, Outcome, Part};
use grammar::Description;

const LONGEST: usize = 1024;

const LARGEST: u64 = 65535;

const DEEPEST: u32 = 16;

const MOST_STEPS: usize = 64;

const FUEL: u32 = 4 * 1024;

// A sign is a byte here, and a field a letter: the second method shares no type with the first.
fn holds(value: u64, sign: Option<u8>, number: u64) -> Option<bool> {
    match sign {
        Some(b'=') => Some(value == number),
        Some(b'<') => Some(value < number),
        Some(b'>') => Some(value > number),
        _ => None,
    }
}

// A text that is read as a rule about a lot. Each method tells where what it read ends, or at which place
// no rule goes on.
#[derive(Clone, Copy)]
struct Descent<'a> {
    text: &'a [u8],
    lot: Description,
}

impl<'a> Descent<'a> {
    fn byte_at(&self, at: usize) -> Option<u8> {
        self.text.get(at).copied()
    }

    fn field(&self, at: usize) -> Option<u64> {
        match self.byte_at(at) {
            Some(b'c') => Some(u64::from(self.lot.class)),
            Some(b'r') => Some(u64::from(self.lot.rating)),
            Some(b'm') => Some(u64::from(self.lot.months)),
            Some(b'i') => Some(u64::from(self.lot.issuer)),
            _ => None,
        }
    }

    // The digits from `at`: what they amount to, capped, and where they end.
    fn digits(&self, at: usize) -> (u64, usize) {
        let mut value: u64 = 0;
        // By a slice: `skip` goes through all bytes before `at`, for each number.
        let rest = self.text.get(at..).unwrap_or(&[]);
        for (i, byte) in rest.iter().enumerate() {
            if !byte.is_ascii_digit() {
                return (value, at.saturating_add(i));
            }
            let digit = u64::from(*byte).saturating_sub(48);
            value = value.saturating_mul(10).saturating_add(digit).min(1000000);
        }
        (value, self.text.len().max(at))
    }

    // A number, which is 0 or has a first digit that is not 0.
    fn number(&self, at: usize) -> Result<(u64, usize), usize> {
        match self.byte_at(at) {
            Some(b'0') => Ok((0, at.saturating_add(1))),
            Some(b'1'..=b'9') => Ok(self.digits(at)),
            _ => Err(at),
        }
    }

    fn test(&self, at: usize) -> Result<(bool, usize), usize> {
        let value = self.field(at).ok_or(at)?;
        let after = at.saturating_add(1);
        let sign = self.byte_at(after);
        holds(value, sign, 0).ok_or(after)?;
        let (amount, end) = self.number(after.saturating_add(1))?;
        Ok((holds(value, sign, amount).unwrap_or(false), end))
    }

    // What the part from `at` says of the lot. `fuel` bounds the depth.
    fn part(&self, at: usize, part: Part, fuel: u32) -> Result<(bool, usize), usize> {
        if fuel == 0 {
            return Err(at);
        }
        let after = at.saturating_add(1);
        let Some((joint, inner)) = part.joint() else {
            return match self.byte_at(at) {
                Some(b'!') => {
                    let (answer, end) = self.part(after, Part::Factor, fuel - 1)?;
                    Ok((!answer, end))
                }
                Some(b'(') => {
                    let (answer, end) = self.part(after, Part::Rule, fuel - 1)?;
                    if self.byte_at(end) != Some(b')') {
                        return Err(end);
                    }
                    Ok((answer, end.saturating_add(1)))
                }
                _ => self.test(at),
            };
        };
        let (mut answer, mut end) = self.part(at, inner, fuel - 1)?;
        // Bounded by the length of a text, so that it ends.
        for _ in 0..LONGEST {
            if self.byte_at(end) != Some(joint) {
                break;
            }
            let (next, after) = self.part(end.saturating_add(1), inner, fuel - 1)?;
            answer = match part {
                Part::Rule => answer | next,
                _ => answer & next,
            };
            end = after;
        }
        Ok((answer, end))
    }

    // Whether a letter and a sign stand at `at`, and a number too large after them.
    fn is_large(&self, at: usize) -> bool {
        let sign = self.byte_at(at.saturating_add(1));
        let first = at.saturating_add(2);
        let named = self.field(at).is_some() && holds(0, sign, 0).is_some();
        named && self.byte_at(first) != Some(b'0') && self.digits(first).0 > LARGEST
    }

    // Where the first number too large begins.
    fn large_number(&self) -> Option<usize> {
        (0..self.text.len())
            .find(|at| self.is_large(*at))
            .map(|at| at.saturating_add(2))
    }
}

// What the rule says of the lot, or the place at which no rule goes on.
pub fn whole(text: &[u8], lot: Description) -> Result<bool, usize> {
    let descent = Descent { text, lot };
    let (answer, end) = descent.part(0, Part::Rule, FUEL)?;
    if end < text.len() {
        return Err(end);
    }
    Ok(answer)
}

// The first opening bracket while the deepest are open.
fn deep_bracket(text: &[u8]) -> Option<usize> {
    let mut opened: u32 = 0;
    let mut shut: u32 = 0;
    for (i, byte) in text.iter().enumerate() {
        match *byte {
            b'(' if opened == shut.saturating_add(DEEPEST) => return Some(i),
            b'(' => opened = opened.saturating_add(1),
            b')' => shut = shut.saturating_add(1),
            _ => {}
        }
    }
    None
}

// The first of the letters, `!`, `&` and `|` past the most that a rule may have.
fn late_step(text: &[u8]) -> Option<usize> {
    let mut steps = text
        .iter()
        .enumerate()
        .filter(|(_, byte)| b"crmi!&|".contains(*byte));
    steps.nth(MOST_STEPS).map(|(i, _)| i)
}

// What should become of the text.
pub fn judged(text: &[u8]) -> Outcome {
    if text.len() > LONGEST {
        return Err(Fault {
            place: 0,
            number: 5,
        });
    }
    let lot = Description {
        class: 0,
        rating: 0,
        months: 0,
        issuer: 0,
    };
    let descent = Descent { text, lot };
    let faults = [
        (6, whole(text, lot).err()),
        (7, descent.large_number()),
        (8, deep_bracket(text)),
        (9, late_step(text)),
    ];
    let least = faults
        .into_iter()
        .filter_map(|(number, place)| place.map(|place| Fault { place, number }))
        .min();
    least.map_or(Ok(()), Err)
}
