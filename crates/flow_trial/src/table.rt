//! The table of networks with known answers.

use crate::graph::{Arc, Graph};
use std::alloc::{AllocError, Global};

/// A line of it: a name, the numbers of nodes, source and sink, the expected value, or another word where the network is to be refused,
/// and for each arc its tail, head and capacity.
#[derive(Debug, Drop)]
pub struct Case<'a> {
    pub name: &'a str,
    pub graph: Graph,
    pub expected: Option<u64>,
}

// A word that is missing or is no number counts as 0, so that each line is a case of its own, and none ends the run.
fn number(word: Option<&str>) -> u64 {
    word.and_then(|word| word.parse::<u64>().ok()).unwrap_or(0)
}

impl<'a> Case<'a> {
    pub fn parse(heap: Global, line: &'a str) -> Result<Case<'a>, AllocError> {
        let mut words = line.split_whitespace();
        let name = words.next().unwrap_or("");
        let nodes = number(words.next()) as usize;
        let source = number(words.next()) as usize;
        let sink = number(words.next()) as usize;
        let expected = words.next().and_then(|word| word.parse::<u64>().ok());
        let numbers: Vec<u64> = words.map(|word| number(Some(word))).collect(heap)?;
        let mut arcs = Vec::new(heap);
        for arc in numbers.chunks(3) {
            // A last arc of fewer than three words is left out.
            if let [tail, head, capacity] = *arc {
                arcs.push(Arc {
                    tail: tail as usize,
                    head: head as usize,
                    capacity,
                })?;
            }
        }
        Ok(Case {
            name,
            graph: Graph {
                nodes,
                source,
                sink,
                arcs,
            },
            expected,
        })
    }
}
