//! A flow that blocks the layers, by depth-first search with a cursor at each node.

ghost use Rattle.std.specs.Prelude.{◌≡◌, ℕ, ◌*◌, ◌+◌, ◌<◌, ◌≤◌, length};
ghost use Rattle.network.specs.Flow.{Flow};
ghost use Rattle.network.specs.Residual.{to, room};
ghost use Rattle.network.specs.Augment.{Trail, Pushed, Sent, stop};
ghost use Rattle.flow.specs.Lists.{at};
ghost use Rattle.flow.specs.Memory.{Fits, Kept};
ghost use Rattle.flow.specs.Blocking.{Marks, First, Walking, Descended, Least, Filled};

use crate::interface::Network;
use crate::memory::Memory;
use crate::residual::Residual;

impl<G: Network> Residual<'_, '_, G> {
    // The mark of the node that the `j`-th arc of `v` enters.
    fn mark_ahead(&self, mark: &[u32], v: usize, j: usize) -> u32
        requires { (v < (G.net self.now.network.now).nodes) × (j < G.deg self.now.network.now v) × ((G.net self.now.network.now).nodes ≤ length mark.now) }
        ensures { result ≡ at mark.now (to (G.net self.now.network.now) (G.inc self.now.network.now v j)) }
    {
        mark[self.network.target(v, j)]
    }

    // The place of the first arc of `v`, from the place `i` on, that has room and goes a layer on, or the number of its arcs,
    // where the cursor of a node that is given up stands.
    fn first_open(&self, mark: &[u32], v: usize, i: usize) -> usize
        requires marks { ((G.net self.now.network.now).nodes ≤ length mark.now) × (at mark.now v ≤ (G.net self.now.network.now).nodes) }
        requires node { (v < (G.net self.now.network.now).nodes) × (i ≤ G.deg self.now.network.now v) }
        ensures { First (G.net self.now.network.now) (G.deg self.now.network.now) (G.inc self.now.network.now) (at self.now.flow.now) (at mark.now) v i result }
    {
        let layer = mark[v] + 1;
        let end = self.network.degree(v);
        // No `find`: its test may be asked of any number, and this one only of those below the degree.
        for j in i..end {
            if self.mark_ahead(mark, v, j) == layer && self.has_room(self.network.leaving(v, j)) {
                return j;
            }
        }
        end
    }

    // Goes on from the node at `d` of the queue, by arcs with room to the next layer each, until it comes to the sink, and returns how
    // many arcs lead there. A node that has no such arc left is given up. Where the source is given up, there is no more way.
    fn descend(&self, memory: &mut Memory, mut d: usize) -> Option<usize>
        requires fits { Fits (G.net self.now.network.now) memory.old }
        requires marks { Marks (G.net self.now.network.now) (at memory.old.mark.now) }
        requires midway { Walking (G.net self.now.network.now) (G.deg self.now.network.now) (G.inc self.now.network.now) (at self.now.flow.now) (at memory.old.mark.now) (at memory.old.cursor.now) (at memory.old.path.now) (at memory.old.queue.now) d }
        ensures kept { Kept (G.net self.now.network.now) memory.old memory.new }
        ensures marks { memory.new.mark.now ≡ memory.old.mark.now }
        ensures descended { Descended (G.net self.now.network.now) (G.deg self.now.network.now) (G.inc self.now.network.now) (at self.now.flow.now) (at memory.new.mark.now) (at memory.new.cursor.now) (at memory.new.path.now) (at memory.new.queue.now) result }
    {
        let mark = &mut *memory.mark;
        let stack = &mut *memory.queue;
        let cursor = &mut *memory.cursor;
        let path = &mut *memory.path;
        let t = self.network.sink();
        let mut v = stack[d] as usize;
        // A search in depth goes on and back: its steps are items of no list.
        while v != t {
            let i = self.first_open(mark, v, cursor[v] as usize);
            cursor[v] = i as u32;
            if i < self.network.degree(v) {
                path[d] = self.network.leaving(v, i) as u32;
                v = self.network.target(v, i);
                d += 1;
                stack[d] = v as u32;
            } else if d == 0 {
                return None;
            } else {
                d -= 1;
                v = stack[d] as usize;
                cursor[v] += 1;
            }
        }
        Some(d)
    }

    // The least room along the first `d` arcs of the path in `memory`, and the place of the first of them that has no more.
    fn bottleneck(&self, memory: &Memory, d: usize) -> (u64, usize)
        requires sizes { (0 < d) × (d ≤ length memory.now.path.now) }
        requires known { (i : ℕ) → i < d → at memory.now.path.now i < 2 * (G.net self.now.network.now).arcs }
        ensures { Least (G.net self.now.network.now) (at self.now.flow.now) (at memory.now.path.now) d result.0 result.1 }
    {
        let mut least = self.room(memory.path[0] as usize);
        let mut first = 0;
        for (i, &a) in memory.path[..d].iter().enumerate() {
            let room = self.room(a as usize);
            if room < least {
                least = room;
                first = i;
            }
        }
        (least, first)
    }
}

// Sends `x` along the residual arc `a`. A `Residual` lends its flow to be read, so one that is written has its length in the contract.
fn send_one<G: Network>(network: &G, flow: &mut [u64], a: usize, x: u64)
    requires sizes { (length flow.old ≡ (G.net network.now).arcs) × (a < 2 * (G.net network.now).arcs) }
    requires fits { x ≤ room (G.net network.now) (at flow.old) a }
    requires within { (k : ℕ) → k < (G.net network.now).arcs → at flow.old k ≤ (G.net network.now).cap k }
    ensures { Pushed (G.net network.now) (at flow.old) (at flow.new) a x }
{
    let k = a / 2;
    if a % 2 == 0 {
        flow[k] += x;
    } else {
        flow[k] -= x;
    }
}

// Sends `x` along the first `d` arcs of the path in `memory`. By the marks no two of them are of one arc.
fn send<G: Network>(network: &G, flow: &mut [u64], memory: &Memory, d: usize, x: u64)
    requires sizes { (length flow.old ≡ (G.net network.now).arcs) × (d ≤ length memory.now.path.now) }
    requires first { at memory.now.mark.now (G.net network.now).source ≡ 1 }
    requires within { (k : ℕ) → k < (G.net network.now).arcs → at flow.old k ≤ (G.net network.now).cap k }
    requires trail { Trail (G.net network.now) (at flow.old) (at memory.now.mark.now) (at memory.now.path.now) d }
    requires fits { (i : ℕ) → i < d → x ≤ room (G.net network.now) (at flow.old) (at memory.now.path.now i) }
    ensures sent { Sent (G.net network.now) (at flow.old) (at flow.new) (at memory.now.mark.now) x (stop (G.net network.now) (at memory.now.path.now) d) }
    ensures along { (j : ℕ) → j < d → room (G.net network.now) (at flow.new) (at memory.now.path.now j) + x ≡ room (G.net network.now) (at flow.old) (at memory.now.path.now j) }
{
    for &a in &memory.path[..d] {
        send_one(network, flow, a as usize, x);
    }
}

// Adds to `flow` a flow that blocks the layers of the marks. Each path to the sink is sent what its narrowest arc has room for, and the
// search goes on from the node that the first arc so filled leaves. It costs no more than nodes times arcs.
pub(crate) fn block<G: Network>(network: &G, flow: &mut [u64], memory: &mut Memory)
    requires whole { length flow.old ≡ (G.net network.now).arcs }
    requires fits { Fits (G.net network.now) memory.old }
    requires marks { Marks (G.net network.now) (at memory.old.mark.now) }
    requires flows { Flow (G.net network.now) (at flow.old) }
    ensures kept { Kept (G.net network.now) memory.old memory.new }
    ensures filled { Filled (G.net network.now) (at flow.old) (at flow.new) (at memory.old.mark.now) }
{
    memory.cursor.fill(0);
    memory.queue[0] = network.source() as u32;
    let mut start = 0;
    while let Some(d) = (Residual { network, flow }).descend(memory, start) {
        let (x, first) = Residual { network, flow }.bottleneck(memory, d);
        send(network, flow, memory, d, x);
        start = first;
    }
}
