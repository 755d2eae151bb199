// A reader over lent bytes: it keeps its place in them and copies none.

ghost use Rattle.std.specs.Prelude.{◌≡◌, ℕ, ◌+◌, ◌*◌, ◌<◌, ◌≤◌, length, MatchResult, slice_index};
ghost use Rattle.curve.specs.Page.{Spelt};

// Fewer bytes are left than were asked for.
#[derive(Clone, Copy, PartialEq, Eq, Debug)]
pub struct Ended;

#[derive(PartialEq, Eq, Debug, Drop)]
pub struct Reader<'a> {
    bytes: &'a [u8],
    at: usize,
}

impl<'a> Reader<'a> {
    pub fn new(bytes: &'a [u8]) -> Reader<'a>
        ensures { (result.bytes.now ≡ bytes.now) × (result.at ≡ 0) }
    {
        Reader { bytes, at: 0 }
    }

    // A reader that begins at a place.
    pub(crate) fn starting(bytes: &'a [u8], at: usize) -> Reader<'a>
        ensures { (result.bytes.now ≡ bytes.now) × (result.at ≡ at) }
    {
        Reader { bytes, at }
    }

    // The next byte.
    pub fn byte(&mut self) -> Result<u8, Ended>
        ensures same { self.new.bytes.now ≡ self.old.bytes.now }
        ensures cases { MatchResult result
            (λ b. (b ≡ slice_index self.old.bytes.now self.old.at) × (self.new.at ≡ self.old.at + 1) × (self.old.at < length self.old.bytes.now))
            (λ _. (self.new.at ≡ self.old.at) × (length self.old.bytes.now ≤ self.old.at)) }
    {
        let byte = *self.bytes.get(self.at).ok_or(Ended)?;
        self.at += 1;
        Ok(byte)
    }

    // The next two bytes as one number, the low byte first.
    pub fn word(&mut self) -> Result<u16, Ended>
        ensures same { self.new.bytes.now ≡ self.old.bytes.now }
        ensures cases { MatchResult result
            (λ v. Spelt self.old.bytes.now self.old.at v × (self.new.at ≡ self.old.at + 2) × (self.old.at + 2 ≤ length self.old.bytes.now))
            (λ _. (self.new.at ≡ self.old.at) × (length self.old.bytes.now < self.old.at + 2)) }
    {
        let rest = self.bytes.get(self.at..).ok_or(Ended)?;
        let [low, high] = *rest.first_chunk::<2>().ok_or(Ended)?;
        self.at += 2;
        Ok(u16::from_le_bytes([low, high]))
    }
}
