//! Building a list of arcs.

ghost use Rattle.std.specs.Prelude.{◌≡◌, ℕ, ◌+◌, ◌*◌, ◌<◌, ◌≤◌, slice_set};
ghost use Rattle.flow.specs.Built.{Endable, Addable, Opened, Added};

use super::{ArcList, MAX_ARCS, MAX_ENDS, MAX_NODES};

/// Why an arc is not added, or a list not made: an end that is no node, or source and sink that are one; too many nodes or arcs; capacities
/// that add up to more than a u64 holds.
#[derive(Clone, Copy, PartialEq, Eq, Debug, Drop)]
pub enum Unfit {
    NodeUnknown,
    Full,
    CapacityLarge,
}

// Whether a network of so many nodes can have these ends.
fn check_ends(nodes: usize, source: usize, sink: usize) -> Result<(), Unfit>
    ensures { Endable nodes source sink result }
{
    if source >= nodes || sink >= nodes || source == sink {
        return Err(Unfit::NodeUnknown);
    }
    if nodes > MAX_NODES {
        return Err(Unfit::Full);
    }
    Ok(())
}

// Writes the two ends of the arc `k`.
fn put_ends(ends: &mut [u32; MAX_ENDS], k: usize, tail: u32, head: u32)
    requires { k < 4096 }
    ensures { ends.new ≡ slice_set (slice_set ends.old (2 * k) head) (2 * k + 1) tail }
{
    ends[2 * k] = head;
    ends[2 * k + 1] = tail;
}

impl ArcList {
    /// A list with no arcs yet.
    pub fn new(nodes: usize, source: usize, sink: usize) -> Result<ArcList, Unfit>
        ensures { Opened nodes source sink result }
    {
        check_ends(nodes, source, sink)?;
        Ok(ArcList {
            nodes,
            source,
            sink,
            arcs: 0,
            total: 0,
            ends: [0; MAX_ENDS],
            caps: [0; MAX_ARCS],
        })
    }

    // What the capacities add up to with one arc more, where it fits.
    fn total_with(&self, tail: usize, head: usize, capacity: u64) -> Result<u64, Unfit>
        ensures { Addable self.now tail head capacity result }
    {
        if tail >= self.nodes || head >= self.nodes {
            return Err(Unfit::NodeUnknown);
        }
        if self.arcs >= MAX_ARCS {
            return Err(Unfit::Full);
        }
        self.total.checked_add(capacity).ok_or(Unfit::CapacityLarge)
    }

    /// Adds an arc from `tail` to `head`, and returns its number.
    pub fn add_arc(&mut self, tail: usize, head: usize, capacity: u64) -> Result<usize, Unfit>
        ensures { Added self.old tail head capacity self.new result }
    {
        let k = self.arcs;
        let total = self.total_with(tail, head, capacity)?;
        put_ends(&mut self.ends, k, tail as u32, head as u32);
        self.caps[k] = capacity;
        self.total = total;
        self.arcs = k + 1;
        Ok(k)
    }
}
