// Trials of what a binder answers, counted.

use binder::Binder;
use cause::Cause;
use grammar::Description;
use std::io;
use tally::Tally;

#[derive(Clone, Copy)]
pub struct Trials {
    tally: Tally,
}

impl Trials {
    pub fn new() -> Trials {
        Trials {
            tally: Tally::new(),
        }
    }

    pub fn note(&mut self, right: bool) {
        self.tally.note(right);
    }

    // What a binder says of a lot under a number.
    pub fn admits<B: Binder>(&mut self, binder: &B, number: u64, fields: [u16; 4], want: bool) {
        self.note(binder.admits(number, lot(fields)) == want);
    }

    // Whether a number is held and its share, which no issuer changes.
    pub fn share<B: Binder>(&mut self, binder: &B, number: u64, want: Option<u16>) {
        self.note(binder.held(number) == want.is_some());
        let share = want.unwrap_or(0);
        self.note(binder.share(number, 0) == share);
        self.note(binder.share(number, 65535) == share);
    }

    pub fn report(&self, rt: &HostRuntime, what: &str) -> io::Result<()> {
        let tally = self.tally;
        println!(rt; "{what}: {tally}")
    }
}

// Class, rating, months and issuer.
pub fn lot(fields: [u16; 4]) -> Description {
    let [class, rating, months, issuer] = fields;
    Description {
        class,
        rating,
        months,
        issuer,
    }
}

// The number of the cause, if the call was refused.
pub fn refusal(outcome: Result<(), Cause>) -> Option<u8> {
    outcome.err().map(Cause::number)
}
