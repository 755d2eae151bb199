// The kinds of nodes. A node's number comes from its places.

ghost use Rattle.std.specs.Prelude.{◌<◌};
ghost use Rattle.cover.specs.Numbered.{Numbered};

use crate::pair::{CELL_NODES, EXPOSURE_NODES, LOT_NODES, Pair, SINK};

#[derive(Clone, Copy)]
pub enum Node {
    Source,
    Lot(usize),
    // the slot of an issuer, and an exposure
    Cell(Pair),
    Exposure(usize),
    Sink,
}

impl Node {
    // The node of number `v`. No `From`, since not every number is one.
    pub fn of(v: usize) -> Node
        requires { v < 1106 }
        ensures { Numbered v result }
    {
        if v < LOT_NODES {
            Node::Source
        } else if v < CELL_NODES {
            Node::Lot(v - LOT_NODES)
        } else if v < EXPOSURE_NODES {
            Node::Cell(Pair::of(v - CELL_NODES))
        } else if v < SINK {
            Node::Exposure(v - EXPOSURE_NODES)
        } else {
            Node::Sink
        }
    }
}
