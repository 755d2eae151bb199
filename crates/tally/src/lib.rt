// How many trials of a program there were, how many came out as expected, and the first that did not.
#![tactic(auto)]

ghost use Rattle.std.specs.Prelude.{◌≡◌, ◌+◌, ◌-◌, ◌^◌, min};
ghost use Rattle.tally.specs.Counted.{Counted};

use std::fmt;

#[derive(Clone, Copy, PartialEq, Eq, Debug, Default)]
pub struct Tally {
    pub right: u64,
    pub wrong: u64,
    // its number, counted from 1
    pub first_wrong: Option<u64>,
}

impl Tally {
    pub fn new() -> Tally
        ensures { result ≡ record { right = 0; wrong = 0; first_wrong = None } }
    {
        Tally::default()
    }

    // Counts one trial. A count stays at the largest number that it can hold.
    pub fn note(&mut self, right: bool)
        ensures { Counted self.old right self.new }
    {
        if right {
            self.right = self.right.saturating_add(1);
        } else {
            self.wrong = self.wrong.saturating_add(1);
            self.first_wrong = self.first_wrong.or(Some(self.tried()));
        }
    }

    // How many there were, right or wrong.
    pub fn tried(&self) -> u64
        ensures { result ≡ min (self.now.right + self.now.wrong) (2 ^ 64 - 1) }
    {
        self.right.saturating_add(self.wrong)
    }
}

impl fmt::Display for Tally {
    fn fmt<W: fmt::Write>(&self, f: &mut fmt::Formatter<W>) -> fmt::Result {
        let tried = self.tried();
        let right = self.right;
        write!(f, "{tried} tried, {right} as expected")?;
        match self.first_wrong {
            Some(number) => write!(f, "\n  the first that was not: {number}"),
            None => Ok(()),
        }
    }
}
