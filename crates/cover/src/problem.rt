// What an allocation is asked about: the lots held, the exposures open, and the terms between them.

ghost use Rattle.cover.specs.View.{Small};

// A held lot.
#[derive(Clone, Copy, PartialEq, Eq, Debug)]
pub struct Lot {
    pub issuer: u8,
    pub worth: u64,
}

// Whether an exposure admits a lot, and its limit for the lot's issuer.
#[derive(Clone, Copy, PartialEq, Eq, Debug)]
pub struct Terms {
    pub admitted: bool,
    pub limit: u64,
}

#[derive(Clone, Copy, PartialEq, Eq, Debug)]
pub struct Problem {
    // by lot place: the lot that is held there
    pub lots: [Option<Lot>; 64],
    // by exposure place: the amount of the exposure that is open there
    pub exposures: [Option<u64>; 16],
    // by lot place and exposure place: whether the exposure admits the lot, and a limit, which counts at its issuer's smallest held lot
    // place. Two arrays, and not one of `Terms`, where a flag would take as much room as a limit.
    pub admitted: [bool; 1024],
    pub limits: [u64; 1024],
    ghost small: { Small lots exposures limits },
}
