// A line is cut into its words in turn; nothing of it is copied.

ghost use Rattle.std.specs.Prelude.{◌≡◌, ℕ, ◌+◌, ◌<◌, ◌≤◌, length, MatchOption, MatchResult, ◌≢◌, slice_index};
ghost use Rattle.std.specs.Iterator.{at_most};
ghost use Rattle.script.specs.Words.{kind, Split, Cut, Ended};

#[derive(Clone, Copy, PartialEq, Eq)]
enum Kind {
    Blank,
    Mark,
    Plain,
}

impl From<u8> for Kind {
    ghost from_gives = { λ byte found. found ≡ kind byte };

    fn from(byte: u8) -> Kind {
        match byte {
            b' ' | b'\t' | b'\r' => Kind::Blank,
            b'#' => Kind::Mark,
            _ => Kind::Plain,
        }
    }
}

// How many bytes at the front are of a kind. By bytes: std's lemmas on texts know one char as a pattern and no
// set of them, and split_ascii_whitespace takes a form feed for a blank and keeps no rest. And by kind, not by a test in its place:
// where a word ends is defined by kinds.
fn run(bytes: &[u8], of: Kind) -> usize
    ensures within { result ≤ length bytes.now }
    ensures all { (i : ℕ) → i < result → kind (slice_index bytes.now i) ≡ of }
    ensures stops { result < length bytes.now → kind (slice_index bytes.now result) ≢ of }
{
    bytes
        .iter()
        .position(|b| Kind::from(*b) != of)
        .unwrap_or(bytes.len())
}

// The longest front of a kind, and what follows it.
fn split(text: &str, of: Kind) -> (&str, &str)
    ensures { Split of text.now result.0.now result.1.now }
{
    text.split_at(run(text.as_bytes(), of))
}

// The words of a line from some place on; what follows the last word that was taken stays in reach.
#[derive(Clone, Copy, PartialEq, Eq, Debug)]
pub struct Words<'a> {
    rest: &'a str,
}

impl<'a> Words<'a> {
    pub fn new(line: &'a str) -> Words<'a>
        ensures { result.rest.now ≡ line.now }
    {
        Words { rest: line }
    }
}

impl<'a> Iterator for Words<'a> {
    type Item = &'a str;

    ghost next_gives = { λ old r new. MatchOption r
        (Ended old.rest.now × (new.rest.now ≡ old.rest.now))
        (λ w. Cut old.rest.now w.now new.rest.now) };

    ghost remaining = { λ s. at_most (length s.rest.now) };

    // The next word, if there is one before the line's end or its comment.
    #[tactic(auto, using(crate::proofs::Lines::shorter))]
    fn next(&mut self) -> Option<&'a str> {
        let (_, text) = split(self.rest, Kind::Blank);
        let (word, rest) = split(text, Kind::Plain);
        if word.is_empty() {
            return None;
        }
        self.rest = rest;
        Some(word)
    }
}
