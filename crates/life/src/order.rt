// What a session is told to do, and what comes of it.

ghost use Rattle.std.specs.Prelude.{◌≡◌};

use cause::Cause;
use cover::Record;
use curve::lot::Terms;

#[derive(Clone, Copy, PartialEq, Eq, Debug)]
pub enum Order {
    Add(u64, Terms),
    Withdraw(u64),
    Open(u64, u64, u64),
    Close(u64),
    Begin,
    Allocate,
    Settle,
    Abandon,
}

// What an order did.
#[derive(Clone, Copy, PartialEq, Eq, Debug)]
pub enum Granted {
    // the collateral value
    Added(u64),
    Withdrawn,
    Opened,
    // how many instructions
    Closed(usize),
    // the number of the run
    Began(u32),
    // how many rounds
    Allocated(usize),
    // how many instructions
    Settled(usize),
    Abandoned,
}

// Why it did nothing.
#[derive(Clone, Copy, PartialEq, Eq, Debug)]
pub enum Refused {
    For(Cause),
    // the shortage, and the record that explains it
    Short(u64, Record),
    // no run is open, so there is no slip to hand in
    NoSlip,
}

impl From<Cause> for Refused {
    ghost use Rattle.life.specs.declared.order.Refused.TheVariants.{For};

    ghost from_gives = { λ cause refused. refused ≡ For cause };

    fn from(cause: Cause) -> Refused {
        Refused::For(cause)
    }
}

pub type Outcome = Result<Granted, Refused>;
