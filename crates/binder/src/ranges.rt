// The ranges of a lot's fields.

ghost use Rattle.std.specs.Prelude.{◌≡◌};
ghost use Rattle.binder.specs.Meaning.{in_range};

use grammar::Description;

const LAST_CLASS: u16 = 7;

const BEST_RATING: u16 = 1;

pub const WORST_RATING: u16 = 22;

pub const LONGEST_TERM: u16 = 1200;

const LAST_ISSUER: u16 = 255;

// Whether the fields can be those of a lot.
pub fn is_lot(lot: Description) -> bool
    ensures { result ≡ in_range lot }
{
    lot.class <= LAST_CLASS
        && lot.rating >= BEST_RATING
        && lot.rating <= WORST_RATING
        && lot.months <= LONGEST_TERM
        && lot.issuer <= LAST_ISSUER
}
