//! Networks as the trial makes them, apart from the library's own.

ghost use Rattle.std.specs.Prelude.{◌<◌};

use std::alloc::{AllocError, Global};

#[derive(Clone, Copy, PartialEq, Eq, Debug, Drop)]
pub struct Arc {
    pub tail: usize,
    pub head: usize,
    pub capacity: u64,
}

#[derive(Debug, Drop)]
pub struct Graph {
    pub nodes: usize,
    pub source: usize,
    pub sink: usize,
    pub arcs: Vec<Arc>,
}

/// Numbers from a seed. Of this trial alone: the networks that are tried, and the counts printed, are those of its sequence.
#[derive(Clone, Copy, PartialEq, Eq, Debug, Drop)]
pub struct Random {
    state: u64,
}

impl Random {
    pub fn new(seed: u64) -> Self {
        Random { state: seed }
    }

    /// A number below `n`, or 0 where `n` is 0.
    pub fn below(&mut self, n: u64) -> u64
        ensures { 0 < n → result < n }
    {
        let mut x = self.state;
        x ^= x << 13;
        x ^= x >> 7;
        x ^= x << 17;
        self.state = x;
        if n == 0 { 0 } else { x % n }
    }

    fn node(&mut self, nodes: usize) -> usize {
        self.below(nodes as u64) as usize
    }
}

/// How many nodes and arcs a network has, and the number that its capacities stay below.
#[derive(Clone, Copy, PartialEq, Eq, Debug, Drop)]
pub struct Sizes {
    pub nodes: usize,
    pub arcs: usize,
    pub most: u64,
}

/// A network of these sizes.
pub fn make(heap: Global, random: &mut Random, sizes: Sizes) -> Result<Graph, AllocError> {
    let Sizes { nodes, arcs, most } = sizes;
    let source = random.node(nodes);
    let mut sink = random.node(nodes);
    if sink == source {
        sink = usize::from(source == 0);
    }
    let mut graph = Graph {
        nodes,
        source,
        sink,
        arcs: Vec::new(heap),
    };
    for _ in 0..arcs {
        graph.arcs.push(Arc {
            tail: random.node(nodes),
            head: random.node(nodes),
            capacity: random.below(most),
        })?;
    }
    Ok(graph)
}
