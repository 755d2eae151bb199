//! The rounds, and the solver.

ghost use Rattle.std.specs.Prelude.{◌≡◌, ℕ, length};
ghost use Rattle.network.specs.Sums.{Agree};
ghost use Rattle.network.specs.Flow.{Flow};
ghost use Rattle.flow.specs.Lists.{at};
ghost use Rattle.flow.specs.Memory.{Fits, SameLists};
ghost use Rattle.flow.specs.Solved.{Solved, Checked, Outcome, marked};

use crate::block::block;
use crate::interface::Network;
use crate::memory::Memory;
use crate::residual::Residual;

/// Whether the node `v` has a mark.
pub fn reached(mark: &[u32], v: usize) -> bool
    ensures { result ≡ marked (at mark.now) v }
{
    v < mark.len() && mark[v] != 0
}

impl Memory<'_> {
    // The same of the marks here.
    fn reached(&self, v: usize) -> bool
        ensures { result ≡ marked (at self.now.mark.now) v }
    {
        reached(self.mark, v)
    }
}

// Nothing sent along any arc.
pub(crate) fn clear(flow: &mut [u64])
    ensures { (k : ℕ) → at flow.new k ≡ 0 }
{
    flow.fill(0);
}

// Rounds of layers and a flow that blocks them, from the flow `start`, which `flow` holds, until the sink is out of reach. Returns how many.
// Network, flow and memory are handed on as the two public calls were given them: a struct of the three would be made to be taken apart below.
fn run<G: Network>(network: &G, flow: &mut [u64], memory: &mut Memory) -> usize
    ghost start: { ℕ → ℕ }
    requires whole { length flow.old ≡ (G.net network.now).arcs }
    requires fits { Fits (G.net network.now) memory.old }
    requires flows { Flow (G.net network.now) start }
    requires starts { Agree (G.net network.now).arcs start (at flow.old) }
    ensures same { SameLists memory.old memory.new }
    ensures solved { Solved (G.net network.now) start (at flow.new) (at memory.new.mark.now) result }
{
    let t = network.sink();
    Residual { network, flow }.layers(memory);
    // How many rounds there will be is not known before, so no range can count them.
    let mut rounds = 0;
    while memory.reached(t) {
        block(network, flow, memory);
        Residual { network, flow }.layers(memory);
        rounds += 1;
    }
    rounds
}

/// Why the solver does not run: `flow` has not one place for each arc, or some of the memory has fewer places than there are nodes.
#[derive(Clone, Copy, PartialEq, Eq, Debug, Drop)]
pub enum Refusal {
    FlowLength,
    MemoryShort,
}

// Whether the flow's length and the memory fit the network.
fn check<G: Network>(network: &G, flow: &[u64], memory: &Memory) -> Result<(), Refusal>
    ensures { Checked (G.net network.now) (length flow.now) memory.now result }
{
    let nodes = network.nodes();
    if flow.len() != network.arcs() {
        return Err(Refusal::FlowLength);
    }
    if memory.mark.len() < nodes
        || memory.queue.len() < nodes
        || memory.cursor.len() < nodes
        || memory.path.len() < nodes
    {
        return Err(Refusal::MemoryShort);
    }
    Ok(())
}

/// Makes `flow` a maximum flow of the network, by Dinic's rounds from the network's initial flow, and returns how many rounds it took.
/// `flow` has a place for each arc, and each list of `memory` one for each node at least. At the end `memory.mark` is above 0 at the nodes
/// that are still reached from the source, which are a minimum cut.
///
/// A round costs no more than nodes times arcs, and there are fewer rounds than nodes.
pub fn maximize<G: Network>(
    network: &G,
    flow: &mut [u64],
    memory: &mut Memory,
) -> Result<usize, Refusal>
    ensures outcome { Outcome (G.net network.now) (G.initial network.now) flow.old memory.old flow.new memory.new result }
    ensures same { SameLists memory.old memory.new }
{
    check(network, flow, memory)?;
    network.load(flow);
    Ok(run(network, flow, memory))
}

/// The same from no flow at all, whatever the initial flow.
#[tactic(auto, using(crate::proofs::Running::none_flows))]
pub fn maximize_from_zero<G: Network>(
    network: &G,
    flow: &mut [u64],
    memory: &mut Memory,
) -> Result<usize, Refusal>
    ensures outcome { Outcome (G.net network.now) (λ _. 0) flow.old memory.old flow.new memory.new result }
    ensures same { SameLists memory.old memory.new }
{
    check(network, flow, memory)?;
    clear(flow);
    Ok(run(network, flow, memory))
}
