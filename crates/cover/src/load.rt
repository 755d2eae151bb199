// From a table to its flow, and back.

ghost use Rattle.std.specs.Prelude.{◌≡◌, ℕ, ◌+◌, ◌<◌, ◌≤◌, Bool, true, false, Decides, MatchOption, ◌==◌, nat_le, length, take};
ghost use Rattle.network.specs.Sums.{sum_over, when};
ghost use Rattle.network.specs.Flow.{Flow};
ghost use Rattle.table.specs.Table.{Lawful, SameTable};
ghost use Rattle.table.specs.Drawn.{place, arc, slot, cap_of, net_of, table_of};
ghost use Rattle.table.specs.Drawn.Arc.{bound};
ghost use Rattle.table.specs.Outcome.{Begins};
ghost use Rattle.cover.specs.View.{at, pledge};
ghost use Rattle.cover.specs.Picture.{pictured};
ghost use Rattle.cover.specs.Loading.{Within, Bears, Adds, TooMuch, FlowOf};

use crate::drawn::Drawn;
use crate::pair::{ARCS, BOUNDS, DEMANDS, LOTS, OFFERS, PAIRS, Pair};
use crate::total::total;

// What the lot of a pair pledges to its exposure.
#[derive(Clone, Copy)]
struct Pledge {
    pair: Pair,
    amount: u64,
}

// A flow that a table is sent along, pledge by pledge. No arc carries more than it can. What changes the flow says that the network stays,
// since a `&mut` might put another in its place.
#[derive(Drop)]
struct Loading<'a> {
    drawn: &'a Drawn<'a>,
    flow: [u64; ARCS],
    ghost arcs: { length flow ≡ 2128 },
    ghost within: { Within (pictured drawn.now) flow },
}

impl Loading<'_> {
    // Whether the arc `k` can carry `x` more.
    fn fits(&self, k: usize, x: u64) -> bool
        requires { k < 2128 }
        ensures { result ≡ nat_le (at self.now.flow k + x) (cap_of (pictured self.now.drawn.now) (arc k)) }
    {
        x <= self.drawn.capacity[k] - self.flow[k]
    }

    // Sends `x` more along the arc `k`, which can carry it.
    fn send(&mut self, k: usize, x: u64)
        requires { (k < 2128) × (at self.old.flow k + x ≤ cap_of (pictured self.old.drawn.now) (arc k)) }
        ensures drawn { self.new.drawn ≡ self.old.drawn }
        ensures sent { (j : ℕ) → at self.new.flow j ≡ at self.old.flow j + when (k == j) x }
    {
        self.flow[k] += x;
    }

    // The arc from the cell of the lot's issuer to the exposure.
    fn bound_of(&self, pair: Pair) -> usize
        ensures is { result ≡ place (bound (slot (pictured self.now.drawn.now) pair.lot) pair.exposure) }
        ensures low { result < 2112 }
    {
        Pair::new(self.drawn.slot_of(pair.lot), pair.exposure).bound()
    }

    // Whether each arc on the path of a pledge can carry it.
    fn bears(&self, pledge: Pledge) -> bool
        ensures bears { result ≡ true → Bears (pictured self.now.drawn.now) pledge self.now.flow }
        ensures refused { result ≡ false → TooMuch (pictured self.now.drawn.now) pledge self.now.flow }
    {
        let pair = pledge.pair;
        let x = pledge.amount;
        // Not one chain of `&&`: there each refusal has to be proved by hand.
        if !self.fits(pair.lot, x) {
            return false;
        }
        if !self.fits(pair.offer(), x) {
            return false;
        }
        if !self.fits(self.bound_of(pair), x) {
            return false;
        }
        self.fits(DEMANDS + pair.exposure, x)
    }

    // Sends a pledge along its path.
    fn add(&mut self, pledge: Pledge)
        requires { Bears (pictured self.old.drawn.now) pledge self.old.flow }
        ensures drawn { self.new.drawn ≡ self.old.drawn }
        ensures adds { Adds (pictured self.old.drawn.now) pledge self.old.flow self.new.flow }
    {
        let pair = pledge.pair;
        let bound = self.bound_of(pair);
        self.send(pair.lot, pledge.amount);
        self.send(pair.offer(), pledge.amount);
        self.send(bound, pledge.amount);
        self.send(DEMANDS + pair.exposure, pledge.amount);
    }

    // Sends a pledge along its path, if each arc can carry it.
    fn carry(&mut self, pledge: Pledge) -> bool
        ensures drawn { self.new.drawn ≡ self.old.drawn }
        ensures carried { result ≡ true → Adds (pictured self.old.drawn.now) pledge self.old.flow self.new.flow }
        ensures refused { result ≡ false → TooMuch (pictured self.old.drawn.now) pledge self.old.flow }
    {
        let fitting = self.bears(pledge);
        if fitting {
            self.add(pledge);
        }
        fitting
    }
}

impl Drawn<'_> {
    // The flow of the table, if the table is lawful.
    fn flow_of(&self, table: &[u64; PAIRS]) -> Option<[u64; ARCS]>
        ensures { FlowOf (pictured self.now) (pledge table.now) result }
    {
        let mut loading = Loading {
            drawn: self,
            flow: [0u64; ARCS],
        };
        for (k, amount) in table.iter().enumerate() {
            let pledge = Pledge {
                pair: Pair::of(k),
                amount: *amount,
            };
            if pledge.amount > 0 && !loading.carry(pledge) {
                return None;
            }
        }
        Some(loading.flow)
    }

    // Whether the table is lawful.
    pub fn is_lawful(&self, table: &[u64; PAIRS]) -> bool
        ensures { Decides result (Lawful (pictured self.now) (pledge table.now)) }
    {
        self.flow_of(table).is_some()
    }

    // The flow that the rounds start from: that of the table, or none where the table is not lawful.
    pub fn start(&self, table: &[u64; PAIRS]) -> [u64; ARCS]
        ensures { (b : Bool) × Begins (pictured self.now) (pledge table.now) (at result) b }
    {
        // Not `unwrap_or`: what begins is proved for each case alone.
        match self.flow_of(table) {
            Some(flow) => flow,
            None => [0u64; ARCS],
        }
    }

    // What flows in all: what all lots are given.
    pub fn value(&self, flow: &[u64; ARCS]) -> u64
        requires { Flow (net_of (pictured self.now)) (at flow.now) }
        ensures { result ≡ sum_over 64 (at flow.now) }
    {
        total(supplies(flow))
    }
}

// What flows along the arcs of the lots.
fn supplies(flow: &[u64; ARCS]) -> &[u64]
    ensures { result.now ≡ take 64 flow.now }
{
    &flow[..LOTS]
}

// What flows along the arcs from lots to cells, which is what is pledged.
fn offers(flow: &[u64; ARCS]) -> &[u64]
    ensures long { length result.now ≡ 1024 }
    ensures each { (k : ℕ) → k < 1024 → at result.now k ≡ at flow.now (64 + k) }
{
    &flow[OFFERS..BOUNDS]
}

// Makes `table` the table of the flow.
pub fn store(flow: &[u64; ARCS], table: &mut [u64; PAIRS])
    ensures { SameTable (table_of (at flow.now)) (pledge table.new) }
{
    table.copy_from_slice(offers(flow));
}
