//! The library's answer, and whether it holds together.

use crate::graph::{Arc, Graph};
use crate::second::capacity_of;
use flow::{
    ArcList, MAX_NODES, Memory, StoredNetwork, Unfit, maximize, maximize_from_zero, reached,
};
use std::alloc::{AllocError, Global};

#[derive(Clone, Copy, PartialEq, Eq, Debug, Drop)]
pub struct Answer {
    pub value: u64,
    pub rounds: usize,
    pub sound: bool,
}

fn store(graph: &Graph) -> Result<StoredNetwork, Unfit> {
    let mut list = ArcList::new(graph.nodes, graph.source, graph.sink)?;
    for arc in &graph.arcs {
        list.add_arc(arc.tail, arc.head, arc.capacity)?;
    }
    Ok(StoredNetwork::new(list))
}

// What `flow` sends along the arcs whose end, by `end`, is `v`.
fn through<E: Fn(&Arc) -> usize>(end: E, arcs: &[Arc], flow: &[u64], v: usize) -> u64
    requires { E.IsAlwaysCallable end }
{
    let mut sum = 0u64;
    for (arc, x) in arcs.iter().zip(flow) {
        if end(arc) == v {
            sum = sum.saturating_add(*x);
        }
    }
    sum
}

fn leaving(graph: &Graph, flow: &[u64], v: usize) -> u64 {
    through(|arc| arc.tail, &graph.arcs, flow, v)
}

fn entering(graph: &Graph, flow: &[u64], v: usize) -> u64 {
    through(|arc| arc.head, &graph.arcs, flow, v)
}

fn within(arcs: &[Arc], flow: &[u64]) -> bool {
    arcs.iter().zip(flow).all(|(arc, x)| *x <= arc.capacity)
}

fn conserved(graph: &Graph, flow: &[u64]) -> bool {
    (0..graph.nodes)
        .filter(|&v| v != graph.source && v != graph.sink)
        .all(|v| leaving(graph, flow, v) == entering(graph, flow, v))
}

fn examine(graph: &Graph, network: &StoredNetwork, flow: &mut [u64]) -> Option<Answer> {
    let mut mark = [0u32; MAX_NODES];
    let mut queue = [0u32; MAX_NODES];
    let mut cursor = [0u32; MAX_NODES];
    let mut path = [0u32; MAX_NODES];
    let mut memory = Memory {
        mark: &mut mark,
        queue: &mut queue,
        cursor: &mut cursor,
        path: &mut path,
    };
    let first = maximize_from_zero(network, flow, &mut memory).ok()?;
    let rounds = maximize(network, flow, &mut memory).ok()?;
    let value = leaving(graph, flow, graph.source).saturating_sub(entering(
        graph,
        flow,
        graph.source,
    ));
    let meets = reached(&mark, graph.source)
        && !reached(&mark, graph.sink)
        && capacity_of(|v| reached(&mark, v), &graph.arcs) == value;
    let sound = rounds == first
        && rounds < graph.nodes
        && within(&graph.arcs, flow)
        && conserved(graph, flow)
        && meets;
    Some(Answer {
        value,
        rounds,
        sound,
    })
}

/// The answer for a network, or none where it is refused.
pub fn solve(heap: Global, graph: &Graph) -> Result<Option<Answer>, AllocError> {
    let Ok(network) = store(graph) else {
        return Ok(None);
    };
    let mut flow: Vec<u64> = vec![in heap; 0; graph.arcs.len()]?;
    Ok(examine(graph, &network, &mut flow))
}
