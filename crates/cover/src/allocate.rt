// The two public calls.

ghost use Rattle.std.specs.Prelude.{◌≡◌, ℕ, Bool, Decides};
ghost use Rattle.table.specs.Table.{Lawful};
ghost use Rattle.table.specs.Drawn.{net_of};
ghost use Rattle.table.specs.Outcome.{Begins};
ghost use Rattle.flow.specs.Solved.{Solved};
ghost use Rattle.cover.specs.View.{at, pledge};
ghost use Rattle.cover.specs.Seen.{seen};
ghost use Rattle.cover.specs.Picture.{pictured};
ghost use Rattle.cover.specs.Answer.{Allocated};

use crate::answer::answer;
use crate::drawn::Drawn;
use crate::load::store;
use crate::note::Reached;
use crate::pair::{ARCS, NODES, PAIRS};
use crate::position::Position;
use crate::{Problem, Record};
use flow::{Memory, maximize};

// The drawn network with the flow of the table, or with none where the table is not lawful.
fn begin<'a>(drawn: &'a Drawn<'a>, table: &[u64; PAIRS]) -> Position<'a>
    ensures drawn { result.drawn.now ≡ drawn.now }
    ensures begins { (b : Bool) × Begins (pictured drawn.now) (pledge table.now) (at result.first) b }
{
    let first = drawn.start(table);
    Position { drawn, first }
}

// Dinic's rounds from the position's flow to a maximum flow, and how many; `mark` is above 0 at the nodes that are still reached.
fn solve(position: &Position, flow: &mut [u64; ARCS], mark: &mut [u32; NODES]) -> usize
    ensures { Solved (net_of (pictured position.now.drawn.now)) (at position.now.first) (at flow.new) (at mark.new) result }
{
    let mut queue = [0u32; NODES];
    let mut cursor = [0u32; NODES];
    let mut path = [0u32; NODES];
    let mut memory = Memory {
        mark,
        queue: &mut queue,
        cursor: &mut cursor,
        path: &mut path,
    };
    match maximize(position, flow, &mut memory) {
        Ok(rounds) => rounds,
        Err(_) => unreachable!(),
    }
}

impl Problem {
    // Whether the table is lawful: each pledge lies on a held lot and an open exposure that admits it, and the pledges of a lot, those
    // from one issuer to an exposure, and those to an exposure add up to no more than value, limit and amount.
    pub fn is_lawful(&self, table: &[u64; PAIRS]) -> bool
        ensures { Decides result (Lawful (seen self.now) (pledge table.now)) }
    {
        let drawn = self.draw();
        drawn.is_lawful(table)
    }

    // Makes `table` one that is lawful and covers, by rounds from it, or from zeros where it is not lawful, and returns how many rounds
    // it took. Where no lawful table covers, `table` stays, the least shortage is returned, and `shortage` explains it; else
    // `shortage` stays.
    pub fn allocate(&self, table: &mut [u64; PAIRS], shortage: &mut Record) -> Result<usize, u64>
        ensures { Allocated (seen self.now) table.old table.new shortage.old shortage.new result }
    {
        let drawn = self.draw();
        let position = begin(&drawn, table);
        let mut flow = [0u64; ARCS];
        let mut mark = [0u32; NODES];
        let rounds = solve(&position, &mut flow, &mut mark);
        let given = drawn.value(&flow);
        let owed = self.owed();
        if given == owed {
            store(&flow, table);
        } else {
            let reached = Reached {
                drawn: &drawn,
                mark: &mark,
            };
            *shortage = reached.note();
        }
        answer(rounds, given, owed)
    }
}
