// The places of lots and exposures, and the numbers of nodes and arcs that come from them.

ghost use Rattle.std.specs.Prelude.{◌≡◌, ◌+◌, ◌*◌, ◌/◌, ◌%◌, ◌<◌};
ghost use Rattle.table.specs.Drawn.{number, place};
ghost use Rattle.table.specs.Drawn.Arc.{offer, bound};
ghost use Rattle.table.specs.Drawn.Node.{cell};

pub const LOTS: usize = 64;

pub const EXPOSURES: usize = 16;

pub const PAIRS: usize = 1024;

// Where the arcs of each kind begin: first the supplies of the lots, then the offers and the bounds of the pairs, then the demands of
// the exposures.
pub const OFFERS: usize = 64;

pub const BOUNDS: usize = 1088;

pub const DEMANDS: usize = 2112;

pub const ARCS: usize = 2128;

// Where the nodes of each kind begin: first the source, then the lots, the cells, the exposures, and the sink.
pub const LOT_NODES: usize = 1;

pub const CELL_NODES: usize = 65;

pub const EXPOSURE_NODES: usize = 1089;

pub const SINK: usize = 1105;

pub const NODES: usize = 1106;

// A lot place, which may be the slot of an issuer, and an exposure place.
#[derive(Clone, Copy)]
pub struct Pair {
    pub lot: usize,
    pub exposure: usize,
    ghost low: { (lot < 64) × (exposure < 16) },
}

impl Pair {
    pub fn new(lot: usize, exposure: usize) -> Pair
        requires { (lot < 64) × (exposure < 16) }
        ensures { (result.lot ≡ lot) × (result.exposure ≡ exposure) }
    {
        Pair { lot, exposure }
    }

    // The pair of number `k`. No `From`, since not every number is one.
    pub fn of(k: usize) -> Pair
        requires { k < 1024 }
        ensures { (result.lot ≡ k / 16) × (result.exposure ≡ k % 16) }
    {
        Pair::new(k / EXPOSURES, k % EXPOSURES)
    }

    pub fn number(self) -> usize
        ensures is { result ≡ self.lot * 16 + self.exposure }
        ensures low { result < 1024 }
    {
        self.lot * EXPOSURES + self.exposure
    }

    // The arc from the lot to its issuer's cell at the exposure.
    pub fn offer(self) -> usize
        ensures is { result ≡ place (offer self.lot self.exposure) }
        ensures low { result < 1088 }
    {
        OFFERS + self.number()
    }

    // The arc from the cell of the slot and the exposure to the exposure.
    pub fn bound(self) -> usize
        ensures is { result ≡ place (bound self.lot self.exposure) }
        ensures low { result < 2112 }
    {
        BOUNDS + self.number()
    }

    // That cell.
    pub fn cell(self) -> usize
        ensures is { result ≡ number (cell self.lot self.exposure) }
        ensures low { result < 1089 }
    {
        CELL_NODES + self.number()
    }
}
