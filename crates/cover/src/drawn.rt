// The network of a problem, as it is drawn for one allocation.

ghost use Rattle.std.specs.Prelude.{◌≡◌, length};
ghost use Rattle.cover.specs.Seen.{seen};
ghost use Rattle.cover.specs.Drawing.{Slotted, Capacities, Counted, Lots, Rowed, Ranked};

mod lists;
mod node;

use crate::Problem;
use crate::pair::{ARCS, LOTS};
pub use node::Node;

// Each arc's capacity and each lot's slot, with the lots of each slot: `counts[t]` of them in the row of 64 places of `t`. No heap: a row
// has room for every lot, and its count stands apart, since the lists of a search ask for the counts alone.
#[derive(Drop)]
pub struct Drawn<'a> {
    pub problem: &'a Problem,
    pub capacity: [u64; ARCS],
    pub slots: [usize; LOTS],
    pub members: [u8; 4096],
    pub counts: [usize; LOTS],
    ghost arcs: { length capacity ≡ 2128 },
    ghost lots: { (length slots ≡ 64) × (length members ≡ 4096) × (length counts ≡ 64) },
    ghost capacities: { Capacities (seen problem.now) capacity },
    ghost slotted: { Slotted (seen problem.now) slots },
    ghost counted: { Counted slots counts 64 },
    ghost known: { Lots members counts },
    ghost rowed: { Rowed slots members counts },
    ghost ranked: { Ranked slots members 64 },
}
