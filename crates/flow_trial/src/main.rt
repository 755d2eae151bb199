//! Tries the solver on networks with known answers, and on networks made from a seed against two other methods.
#![tactic(auto)]

mod graph;
mod second;
mod solve;
mod table;

use graph::{Graph, Random, Sizes, make};
use second::{FEW, SIZE, by_paths, least_cut};
use solve::solve;
use std::alloc::Global;
use table::Case;

// Prints what was found for a line of the table, and says whether it is right.
fn known(rt: HostRuntime, line: &str) -> anyhow::Result<bool> {
    let heap = rt.alloc();
    let Case {
        name,
        graph,
        expected,
    } = Case::parse(heap, line)?;
    match (solve(heap, &graph)?, expected) {
        (Some(found), Some(value)) => {
            let right = found.sound && found.value == value;
            println!(rt;
                "{name}: {} by {} rounds, right: {right}",
                found.value, found.rounds
            )?;
            Ok(right)
        }
        (None, None) => {
            println!(rt; "{name}: refused, right: true")?;
            Ok(true)
        }
        _ => {
            println!(rt; "{name}: right: false")?;
            Ok(false)
        }
    }
}

// How many networks were tried, on how many the answers agree, and the rounds that they took.
#[derive(Clone, Copy, PartialEq, Eq, Debug, Default, Drop)]
struct Agreement {
    networks: u64,
    agree: u64,
    rounds: u64,
    most: u64,
}

impl Agreement {
    fn count(&mut self, agrees: bool, rounds: u64) {
        self.networks = self.networks.saturating_add(1);
        self.agree = self.agree.saturating_add(u64::from(agrees));
        self.rounds = self.rounds.saturating_add(rounds);
        self.most = self.most.max(rounds);
    }
}

// Few nodes, so that all cuts can be tried.
fn few(random: &mut Random) -> Sizes {
    Sizes {
        nodes: 2 + random.below(FEW as u64 - 1) as usize,
        arcs: random.below(28) as usize,
        most: 1 + random.below(12),
    }
}

// As many nodes as the search of paths takes.
fn many(random: &mut Random) -> Sizes {
    Sizes {
        nodes: SIZE,
        arcs: 20 + random.below(100) as usize,
        most: 1 + random.below(1000),
    }
}

// So many networks, of sizes by `sizes`, against another method.
fn against<S: Fn(&mut Random) -> Sizes, M: Fn(&Graph) -> u64>(
    heap: Global,
    random: &mut Random,
    networks: u32,
    sizes: S,
    method: M,
) -> anyhow::Result<Agreement>
    requires sizes { S.IsAlwaysCallable sizes }
    requires method { M.IsAlwaysCallable method }
{
    let mut tally = Agreement::default();
    for _ in 0..networks {
        let drawn = sizes(random);
        let graph = make(heap, random, drawn)?;
        match solve(heap, &graph)? {
            Some(answer) => tally.count(
                answer.sound && answer.value == method(&graph),
                answer.rounds as u64,
            ),
            None => tally.count(false, 0),
        }
    }
    Ok(tally)
}

fn report(rt: HostRuntime, method: &str, tally: Agreement) -> anyhow::Result<()> {
    let Agreement {
        networks,
        agree,
        rounds,
        most,
    } = tally;
    println!(rt;
        "{method}: {agree} of {networks} networks agree, {rounds} rounds, {most} at most"
    )?;
    Ok(())
}

fn main(rt: HostRuntime) -> anyhow::Result<()> {
    let heap = rt.alloc();
    let mut tally = Agreement::default();
    for line in rt.lines(heap) {
        tally.count(known(rt, line?.as_str())?, 0);
    }
    println!(rt;
        "known answers: {} of {} right",
        tally.agree, tally.networks
    )?;
    let mut random = Random::new(0x9e37_79b9_7f4a_7c15);
    report(
        rt,
        "cuts",
        against(heap, &mut random, 4000, few, least_cut)?,
    )?;
    report(
        rt,
        "paths",
        against(heap, &mut random, 1000, many, by_paths)?,
    )?;
    Ok(())
}
