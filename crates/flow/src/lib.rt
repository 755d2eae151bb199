//! Maximum flow by Dinic's rounds, over any network, with no heap.
//!
//! `maximize` takes a network, by the trait `Network`, and makes a maximum flow of the flow that the network begins with;
//! `maximize_from_zero` begins with none. Each round takes layers by breadth-first search along residual arcs, which stops at the sink's
//! layer, and adds a flow that blocks them, by depth-first search with a cursor at each node, which goes on from the first arc that it
//! filled. A round costs no more than nodes times arcs. The contract gives the chain of just so many rounds as are returned, the maximum,
//! and the nodes still reached as a minimum cut of the same capacity; there are fewer rounds than nodes.
//!
//! What flows, cuts and rounds are is defined in the crate `network`, with the laws that this rests on. `ArcList` and `StoredNetwork` are a
//! network kept in arrays, of up to 2,048 nodes and 4,096 arcs. Capacities are any u64; those of a stored network add up to one.
#![tactic(auto)]

mod block;
mod interface;
mod layers;
mod memory;
mod residual;
mod rounds;
mod stored;

pub use interface::Network;
pub use memory::Memory;
pub use rounds::{Refusal, maximize, maximize_from_zero, reached};
pub use stored::{ArcList, MAX_ARCS, MAX_ENDS, MAX_NODES, StoredNetwork, Unfit};
