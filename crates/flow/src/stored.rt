//! A network that is stored: a list of arcs, and the arcs by the node that they leave.

ghost use Rattle.std.specs.Prelude.{◌≡◌, ℕ, ◌+◌, ◌*◌, ◌^◌, ◌<◌, ◌≤◌, length, ◌≢◌};
ghost use Rattle.network.specs.Sums.{sum_over};
ghost use Rattle.flow.specs.Lists.{at};
ghost use Rattle.flow.specs.Stored.{Joins, Degrees, Starts, Rows};

mod arcs;
mod rows;

use crate::interface::Network;
pub use arcs::Unfit;

/// The most nodes and arcs that are stored. Each arc has two ends.
pub const MAX_NODES: usize = 2048;

pub const MAX_ARCS: usize = 4096;

pub const MAX_ENDS: usize = 2 * MAX_ARCS;

/// A list of arcs, to which more are added. `ends[2k]` is the head of the arc k, and `ends[2k + 1]` its tail. The capacities add up to `total`.
// No heap: the arrays are fixed. They are two, and no array of arcs, so that one step reads the node that a residual arc enters, either way.
// No equality and no printing, of some 12,000 numbers: nothing asks for them.
#[derive(Drop)]
pub struct ArcList {
    pub nodes: usize,
    pub source: usize,
    pub sink: usize,
    pub arcs: usize,
    pub total: u64,
    pub ends: [u32; MAX_ENDS],
    pub caps: [u64; MAX_ARCS],
    ghost sizes: { (length ends ≡ 8192) × (length caps ≡ 4096) × (nodes ≤ 2048) × (arcs ≤ 4096) },
    ghost inner: { (source < nodes) × (sink < nodes) },
    ghost apart: { (source ≢ sink) },
    ghost joins: { Joins nodes arcs ends },
    ghost sums: { (total ≡ sum_over arcs (at caps)) × (total < 2 ^ 64) },
}

/// The network of a list of arcs, with the residual arcs that leave a node v side by side: `degree[v]` of them from `rows[start[v]]` on.
// No heap: the arrays are fixed. Degrees and starts are two, and no array of pairs, since a question reads one of them. As little is it
// compared or printed.
#[derive(Drop)]
pub struct StoredNetwork {
    pub list: ArcList,
    pub degree: [u32; MAX_NODES],
    pub start: [u32; MAX_NODES],
    pub rows: [u32; MAX_ENDS],
    ghost sizes: { (length degree ≡ 2048) × (length start ≡ 2048) × (length rows ≡ 8192) },
    ghost degrees: { Degrees list.nodes (2 * list.arcs) list.ends degree },
    ghost starts: { Starts list.nodes (2 * list.arcs) list.ends start },
    ghost filled: { Rows (2 * list.arcs) list.ends start rows },
}
