// A position as a `Network`: each node's arcs are listed by its kind, and no list is stored but the lots of a cell.

ghost use Rattle.table.specs.Drawn.{net_of};
ghost use Rattle.table.specs.Listing.{deg_of, inc_of};
ghost use Rattle.cover.specs.View.{at};
ghost use Rattle.cover.specs.Picture.{pictured, count_of, member_of};
ghost use Rattle.cover.specs.PictureLemmas.{drawn_lawful};

use super::Position;
use crate::drawn::Node;
use crate::pair::{ARCS, NODES, SINK};
use flow::Network;

impl Network for Position<'_> {
    ghost net = { λ p. net_of (pictured p.drawn.now) };

    ghost deg = { λ p. deg_of (count_of p.drawn.now) };

    ghost inc = { λ p. inc_of (member_of p.drawn.now) };

    ghost initial = { λ p. at p.first };

    ghost lawful = { λ x. drawn_lawful x.drawn.now };

    ghost begins = { λ x. record { within = x.within; conserved = λ v h a b. x.conserved v (h, a, b) } };

    fn nodes(&self) -> usize {
        NODES
    }

    fn arcs(&self) -> usize {
        ARCS
    }

    fn source(&self) -> usize {
        0
    }

    fn sink(&self) -> usize {
        SINK
    }

    fn degree(&self, v: usize) -> usize {
        self.drawn.degree(Node::of(v))
    }

    fn leaving(&self, v: usize, i: usize) -> usize {
        self.drawn.leaving(Node::of(v), i)
    }

    fn target(&self, v: usize, i: usize) -> usize {
        self.drawn.target(Node::of(v), i)
    }

    fn capacity(&self, k: usize) -> u64 {
        self.drawn.capacity[k]
    }

    fn load(&self, flow: &mut [u64]) {
        flow.copy_from_slice(&self.first);
    }
}
