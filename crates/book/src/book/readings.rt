ghost use Rattle.std.specs.Prelude.{◌≡◌, ◌≤◌, false, ◌⊎◌, Ok, cond, nat_lt, Err, slice_index_or, None};
ghost use Rattle.cause.specs.declared.Cause.TheVariants.{PlaceOutside};
ghost use Rattle.calls.specs.State.{held_at, open_at};
ghost use Rattle.book.specs.View.{view};
ghost use Rattle.book.specs.Readings.{found, lot_read, exposure_read, pledge_read, run_open};

use crate::book::Book;
use crate::places::{Place, pair};
use calls::Exposure;
use cause::Cause;
use curve::lot::Lot;

// Which of the two tables.
#[derive(Clone, Copy, PartialEq, Eq, Debug)]
pub enum Kind {
    Standing,
    Working,
}

// What stands at a place.
fn read<T: Copy, const N: usize>(places: &[Option<T>; N], place: u64) -> Result<T, Cause>
    ensures { result ≡ cond (nat_lt place N) (found (slice_index_or places.now place None)) (Err PlaceOutside) }
{
    let place = Place::<N>::try_from(place)?;
    places[place.at].ok_or(Cause::PlaceEmpty)
}

impl Book {
    // The lot at a place, with its collateral value.
    pub fn lot(&self, place: u64) -> Result<Lot, Cause>
        ensures { result ≡ lot_read (view self.now) place }
    {
        read(&self.lots, place)
    }

    pub fn exposure(&self, place: u64) -> Result<Exposure, Cause>
        ensures { result ≡ exposure_read (view self.now) place }
    {
        read(&self.exposures, place)
    }

    // What a lot pledges to an exposure: 0 where either place is empty.
    pub fn pledge(&self, kind: Kind, lot: u64, exposure: u64) -> Result<u64, Cause>
        ensures read { result ≡ pledge_read (view self.now) kind lot exposure }
        ensures empty { lot ≤ 63 → exposure ≤ 15 → (held_at self.now.lots lot ≡ false) ⊎ (open_at self.now.exposures exposure ≡ false) → result ≡ Ok 0 }
    {
        let place = pair(Place::try_from(lot)?, Place::try_from(exposure)?);
        let table = match kind {
            Kind::Standing => &self.standing,
            Kind::Working => &self.working,
        };
        Ok(table[place.at])
    }

    // The number of the open run, if there is one.
    pub fn open_run(&self) -> Option<u32>
        ensures { result ≡ run_open (view self.now) }
    {
        self.in_run.then_some(self.run)
    }
}
