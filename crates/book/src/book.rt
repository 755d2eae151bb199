ghost use Rattle.std.specs.Prelude.{◌≡◌, false, length};
ghost use Rattle.book.specs.Kept.{Grounded, Low, Worths, Amounts};

use crate::places::{EXPOSURES, LOTS, PAIRS};
use crate::pledges::filled;
use calls::Exposure;
use curve::lot::Lot;

pub mod allocate;
pub mod exposures;
pub mod lots;
pub mod readings;
pub mod runs;

// 64 lot places, 16 exposure places, and two tables with a pledge for each pair of them: what
// stands, and what the open run works on.
// No equality and no printing, of some 2,000 numbers: readings and instructions tell of it.
#[derive(Drop)]
pub struct Book {
    lots: [Option<Lot>; LOTS],
    exposures: [Option<Exposure>; EXPOSURES],
    // of fixed size, since every pair of places has a pledge, if only of 0
    standing: [u64; PAIRS],
    working: [u64; PAIRS],
    number: u16,
    // the number of the latest run, which goes on counting where none is open
    run: u32,
    in_run: bool,
    ghost places: { (length lots ≡ 64) × (length exposures ≡ 16) },
    ghost tables: { (length standing ≡ 1024) × (length working ≡ 1024) },
    ghost grounded: { Grounded lots exposures standing },
    ghost grounded_working: { Grounded lots exposures working },
    ghost low: { Low standing },
    ghost low_working: { Low working },
    ghost worths: { Worths lots },
    ghost amounts: { Amounts exposures },
    ghost idle: { (in_run ≡ false → working ≡ standing) },
}

impl Book {
    ghost use Rattle.std.specs.Prelude.{◌≤◌};
    ghost use Rattle.calls.specs.Call.{held_lots, open_exposures};
    ghost use Rattle.book.specs.View.{view};

    fn held_lots(&self) -> usize
        ensures count { result ≡ held_lots (view self.now) }
        ensures bound { result ≤ 64 }
    {
        filled(&self.lots)
    }

    fn open_exposures(&self) -> usize
        ensures count { result ≡ open_exposures (view self.now) }
        ensures bound { result ≤ 16 }
    {
        filled(&self.exposures)
    }
}
