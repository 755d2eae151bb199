// The slip of a run: whoever holds it may allocate, and has to settle or abandon. It is of no type
// that may be let go, so a program that drops it unspent, or uses it twice, is turned away.

ghost use Rattle.std.specs.Prelude.{◌≡◌};

#[derive(PartialEq, Eq, Debug)]
pub struct Slip {
    pub(crate) book: u16,
    pub(crate) run: u32,
}

impl Slip {
    // The number of the run.
    pub fn run(&self) -> u32
        ensures { result ≡ self.now.run }
    {
        self.run
    }

    // Once its run is over.
    pub(crate) fn spend(self) {
        let Slip { book: _, run: _ } = self;
    }
}
