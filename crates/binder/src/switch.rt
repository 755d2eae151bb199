// Where a pair goes over from its first binder to its second.

ghost use Rattle.std.specs.Prelude.{◌≡◌, ◌<◌, ◌≤◌, ◌-◌};

use cause::Cause;

// How many numbers a binder has at most.
const NUMBERS: u64 = 16;

// Which of a pair's two binders.
#[derive(Clone, Copy, PartialEq, Eq, Debug)]
pub enum Side {
    First,
    Second,
}

#[derive(Clone, Copy, PartialEq, Eq, Debug)]
pub struct Switch {
    at: u64,
    ghost within: { at ≤ 16 },
}

impl Switch {
    ghost use Rattle.binder.specs.Switch.{Setting, Routed, Asked};

    // At 16: every number is the first binder's.
    pub fn new() -> Switch
        ensures { result.at ≡ 16 }
    {
        Switch { at: NUMBERS }
    }

    // Sets the switch. One over 16 is refused and changes nothing.
    pub fn set(&mut self, at: u64) -> Result<(), Cause>
        ensures { Setting at self.old.at self.new.at result }
    {
        if at > NUMBERS {
            return Err(Cause::SwitchLarge);
        }
        self.at = at;
        Ok(())
    }

    // The binder that a number of a pair belongs to, and the number that it has there. A number of 16
    // or more belongs to none.
    pub fn route(&self, number: u64) -> Option<(Side, u64)>
        ensures { Routed self.now.at number result }
    {
        if number < self.at {
            Some((Side::First, number))
        } else if number < NUMBERS {
            Some((Side::Second, number - self.at))
        } else {
            None
        }
    }

    // What the binder answers that the number belongs to. Of this crate alone: it asks that the closures may be called, and
    // a public call asks nothing.
    pub(crate) fn ask<A, F: FnOnce(u64) -> A, G: FnOnce(u64) -> A>(
        &self,
        number: u64,
        first: F,
        second: G,
    ) -> Option<A>
        requires first { number < self.now.at → F.pre first number }
        requires second { self.now.at ≤ number → number < 16 → G.pre second (number - self.now.at) }
        ensures { Asked self.now.at number (F.post first) (G.post second) result }
    {
        match self.route(number)? {
            (Side::First, n) => Some(first(n)),
            (Side::Second, n) => Some(second(n)),
        }
    }
}
