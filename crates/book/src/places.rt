// The places of a book: one for each lot, one for each exposure, and one in each pledge table for
// every pair of them, by lot and then by exposure.

ghost use Rattle.std.specs.Prelude.{◌≡◌, ◌+◌, ◌*◌, ◌<◌, ◌≤◌};
ghost use Rattle.std.specs.Result.{MatchResult};
ghost use Rattle.cause.specs.declared.Cause.TheVariants.{PlaceOutside};

use cause::Cause;

pub const LOTS: usize = 64;

pub const EXPOSURES: usize = 16;

pub const PAIRS: usize = LOTS * EXPOSURES;

// A place below N.
#[derive(Clone, Copy, PartialEq, Eq, Debug)]
pub struct Place<const N: usize> {
    pub at: usize,
    ghost within: { at < N },
}

impl<const N: usize> TryFrom<u64> for Place<N> {
    type Error = Cause;

    ghost try_from_gives = { λ at r. MatchResult r (λ x. (x.at ≡ at) × (at < N)) (λ e. (e ≡ PlaceOutside) × (N ≤ at)) };

    fn try_from(at: u64) -> Result<Place<N>, Cause> {
        let at = at as usize;
        if at < N {
            Ok(Place { at })
        } else {
            Err(Cause::PlaceOutside)
        }
    }
}

// The place in a pledge table.
pub fn pair(lot: Place<LOTS>, exposure: Place<EXPOSURES>) -> Place<PAIRS>
    ensures { result.at ≡ lot.at * 16 + exposure.at }
{
    Place {
        at: lot.at * EXPOSURES + exposure.at,
    }
}
