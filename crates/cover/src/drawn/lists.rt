// The residual arcs at a node, by its kind: those along an arc have an even number, those back along one the odd number after it.

ghost use Rattle.std.specs.Prelude.{◌≡◌, ◌+◌, ◌*◌, ◌<◌};
ghost use Rattle.network.specs.Residual.{ahead, back};
ghost use Rattle.table.specs.Drawn.{number, slot};
ghost use Rattle.table.specs.Listing.{deg_of_node, inc_of_node, target_of};
ghost use Rattle.cover.specs.Picture.{pictured, count_of, member_of};
ghost use Rattle.cover.specs.Numbered.{shown, Placed};

use super::{Drawn, Node};
use crate::pair::{DEMANDS, EXPOSURE_NODES, EXPOSURES, LOT_NODES, LOTS, Pair, SINK};

// The residual arc along the arc `k`.
fn ahead(k: usize) -> usize
    requires { k < 2128 }
    ensures { result ≡ ahead k }
{
    2 * k
}

// The residual arc back along the arc `k`.
fn back(k: usize) -> usize
    requires { k < 2128 }
    ensures { result ≡ back k }
{
    2 * k + 1
}

impl Drawn<'_> {
    // The slot of the lot `l`.
    pub fn slot_of(&self, l: usize) -> usize
        requires { l < 64 }
        ensures is { result ≡ slot (pictured self.now) l }
        ensures low { result < 64 }
    {
        self.slots[l]
    }

    // The lot that stands at `i` among those of the slot `t`.
    fn member(&self, t: usize, i: usize) -> usize
        requires { (t < 64) × (i < count_of self.now t) }
        ensures is { result ≡ member_of self.now t i }
        ensures low { result < 64 }
    {
        self.members[t * LOTS + i] as usize
    }

    // How many residual arcs leave a node.
    pub fn degree(&self, node: Node) -> usize
        ensures { result ≡ deg_of_node (count_of self.now) (shown node) }
    {
        match node {
            Node::Source => LOTS,
            Node::Lot(_) => EXPOSURES + 1,
            Node::Cell(pair) => self.counts[pair.lot] + 1,
            Node::Exposure(_) => LOTS + 1,
            Node::Sink => EXPOSURES,
        }
    }

    // The `i`-th of them.
    pub fn leaving(&self, node: Node, i: usize) -> usize
        requires { Placed node × (i < deg_of_node (count_of self.now) (shown node)) }
        ensures { result ≡ inc_of_node (member_of self.now) (shown node) i }
    {
        match node {
            Node::Source => ahead(i),
            Node::Lot(l) if i < EXPOSURES => ahead(Pair::new(l, i).offer()),
            Node::Lot(l) => back(l),
            Node::Cell(pair) if i == 0 => ahead(pair.bound()),
            Node::Cell(pair) => {
                let lot = self.member(pair.lot, i - 1);
                back(Pair::new(lot, pair.exposure).offer())
            }
            Node::Exposure(e) if i == 0 => ahead(DEMANDS + e),
            Node::Exposure(e) => back(Pair::new(i - 1, e).bound()),
            Node::Sink => back(DEMANDS + i),
        }
    }

    // The node that it enters.
    pub fn target(&self, node: Node, i: usize) -> usize
        requires { Placed node × (i < deg_of_node (count_of self.now) (shown node)) }
        ensures { result ≡ number (target_of (pictured self.now) (member_of self.now) (shown node) i) }
    {
        match node {
            Node::Source => LOT_NODES + i,
            Node::Lot(l) if i < EXPOSURES => Pair::new(self.slot_of(l), i).cell(),
            Node::Lot(_) => 0,
            Node::Cell(pair) if i == 0 => EXPOSURE_NODES + pair.exposure,
            Node::Cell(pair) => LOT_NODES + self.member(pair.lot, i - 1),
            Node::Exposure(_) if i == 0 => SINK,
            Node::Exposure(e) => Pair::new(i - 1, e).cell(),
            Node::Sink => EXPOSURE_NODES + i,
        }
    }
}
