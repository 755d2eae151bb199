//! The layers of the residual network, by breadth-first search.

ghost use Rattle.std.specs.Prelude.{◌≡◌, ◌+◌, ◌<◌};
ghost use Rattle.flow.specs.Lists.{at};
ghost use Rattle.flow.specs.Memory.{Fits, Kept};
ghost use Rattle.flow.specs.Search.{Bfs, Searched};

use crate::interface::Network;
use crate::memory::Memory;
use crate::residual::Residual;

impl<G: Network> Residual<'_, '_, G> {
    // Settles the arcs of the node that stands at `done` in the queue, and returns how many nodes were queued then.
    fn spread(&self, memory: &mut Memory, done: usize, mut count: usize) -> usize
        requires fits { Fits (G.net self.now.network.now) memory.old }
        requires midway { Bfs (G.net self.now.network.now) (at self.now.flow.now) (at memory.old.mark.now) (at memory.old.queue.now) done count × (done < count) }
        ensures kept { Kept (G.net self.now.network.now) memory.old memory.new }
        ensures settled { Bfs (G.net self.now.network.now) (at self.now.flow.now) (at memory.new.mark.now) (at memory.new.queue.now) (done + 1) result }
    {
        let mark = &mut *memory.mark;
        let queue = &mut *memory.queue;
        let v = queue[done] as usize;
        let layer = mark[v] + 1;
        // A network gives its arcs by number; the queue is lent, so how many stand in it is counted beside it.
        for i in 0..self.network.degree(v) {
            let w = self.network.target(v, i);
            if mark[w] == 0 && self.has_room(self.network.leaving(v, i)) {
                mark[w] = layer;
                queue[count] = w as u32;
                count += 1;
            }
        }
        count
    }

    // Marks each node that residual arcs lead to from the source by 1 more than the fewest of them, and every other by 0. Where it comes
    // to the sink it stops, and nodes that are no nearer than the sink may be left at 0.
    pub fn layers(&self, memory: &mut Memory)
        requires { Fits (G.net self.now.network.now) memory.old }
        ensures kept { Kept (G.net self.now.network.now) memory.old memory.new }
        ensures searched { Searched (G.net self.now.network.now) (at self.now.flow.now) (at memory.new.mark.now) }
    {
        let s = self.network.source();
        let t = self.network.sink();
        memory.mark.fill(0);
        memory.mark[s] = 1;
        memory.queue[0] = s as u32;
        // The queue grows while it is read, so no iterator can go over it.
        let mut done = 0;
        let mut count = 1;
        while done < count && memory.mark[t] == 0 {
            count = self.spread(memory, done, count);
            done += 1;
        }
    }
}
