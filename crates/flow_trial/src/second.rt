//! Second methods: the least of all cuts, and Ford and Fulkerson's search for one path after the other.

ghost use Rattle.std.specs.Prelude.{ℕ, ◌<◌};

use crate::graph::{Arc, Graph};

/// The most nodes whose cuts are all tried, and the most that the search of paths takes.
pub const FEW: usize = 10;

pub const SIZE: usize = 24;

fn has(set: u32, v: usize) -> bool {
    v < 32 && (set >> v) & 1 == 1
}

/// What the arcs that lead out of a set of nodes can carry.
pub fn capacity_of<I: Fn(usize) -> bool>(inside: I, arcs: &[Arc]) -> u64
    requires { I.IsAlwaysCallable inside }
{
    let mut sum = 0u64;
    for arc in arcs {
        if inside(arc.tail) && !inside(arc.head) {
            sum = sum.saturating_add(arc.capacity);
        }
    }
    sum
}

/// The least capacity of all cuts of a network of few nodes.
pub fn least_cut(graph: &Graph) -> u64 {
    (0..1u32 << FEW)
        .filter(|&set| has(set, graph.source) && !has(set, graph.sink))
        .map(|set| capacity_of(|v| has(set, v), &graph.arcs))
        .min()
        .unwrap_or(u64::MAX)
}

type Matrix = [[u64; SIZE]; SIZE];

fn matrix_of(arcs: &[Arc]) -> Matrix {
    let mut matrix = [[0u64; SIZE]; SIZE];
    for arc in arcs {
        if arc.tail < SIZE && arc.head < SIZE {
            let x = matrix[arc.tail][arc.head];
            matrix[arc.tail][arc.head] = x.saturating_add(arc.capacity);
        }
    }
    matrix
}

// From which node each node was reached; the source from itself.
type Parents = [Option<usize>; SIZE];

// One more look at each pair: a node that an open pair leads to, from a node that was reached, is reached from there.
fn widen(matrix: &Matrix, parent: &mut Parents) {
    for (u, row) in matrix.iter().enumerate() {
        for (v, &room) in row.iter().enumerate() {
            if parent[u].is_some() && parent[v].is_none() && room > 0 {
                parent[v] = Some(u);
            }
        }
    }
}

fn parents(matrix: &Matrix, source: usize) -> Parents {
    let mut parent = [None; SIZE];
    if source < SIZE {
        parent[source] = Some(source);
    }
    for _ in 0..SIZE {
        widen(matrix, &mut parent);
    }
    parent
}

// Visits each pair of the path from the source to the sink, from its end.
fn along<F: FnMut(usize, usize)>(parent: &Parents, source: usize, sink: usize, mut visit: F)
    requires { (state : F) (u v : ℕ) → u < SIZE → v < SIZE → F.pre state u v }
{
    let mut v = sink;
    // Bounded by the nodes, so that it ends.
    for _ in 0..SIZE {
        if v >= SIZE || v == source {
            break;
        }
        let Some(u) = parent[v] else {
            break;
        };
        if u >= SIZE {
            break;
        }
        visit(u, v);
        v = u;
    }
}

/// The value of a maximum flow of a network of up to `SIZE` nodes, by one path after the other.
pub fn by_paths(graph: &Graph) -> u64 {
    let mut matrix = matrix_of(&graph.arcs);
    let mut value = 0u64;
    // Bounded, so that it ends: no network here takes so many paths.
    for _ in 0..100_000 {
        let parent = parents(&matrix, graph.source);
        if graph.sink >= SIZE || parent[graph.sink].is_none() {
            break;
        }
        let mut least = u64::MAX;
        along(&parent, graph.source, graph.sink, |u, v| {
            least = least.min(matrix[u][v]);
        });
        along(&parent, graph.source, graph.sink, |u, v| {
            matrix[u][v] = matrix[u][v].saturating_sub(least);
            matrix[v][u] = matrix[v][u].saturating_add(least);
        });
        value = value.saturating_add(least);
    }
    value
}
