//! What the solver asks of a network.

ghost use Rattle.std.specs.Prelude.{◌≡◌, ℕ, ◌*◌, ◌<◌, ◌≤◌, length};
ghost use Rattle.network.specs.Sums.{Agree};
ghost use Rattle.network.specs.Flow.{Net, Flow};
ghost use Rattle.network.specs.Residual.{to};
ghost use Rattle.flow.specs.Lists.{at};
ghost use Rattle.flow.specs.Lawful.{Lawful};

/// A network, by its meaning `net`. The nodes are the numbers below `nodes`, the arcs those below `arcs`; each arc k has two residual
/// arcs, 2k along it and 2k + 1 back along it. `inc v i`, for i below `deg v`, are the residual arcs that leave the node v.
///
/// A network comes with a flow to begin with, `initial`, which is 0 on each arc where nothing was sent yet.
///
/// The laws are what the solver relies on: arcs join nodes, the lists are whole, numbers fit their words, and `initial` is a flow.
pub trait Network {
    ghost net: { Self → Net };

    ghost deg: { Self → ℕ → ℕ };

    ghost inc: { Self → ℕ → ℕ → ℕ };

    ghost initial: { Self → ℕ → ℕ };

    fn nodes(&self) -> usize
        ensures { result ≡ (net self.now).nodes };

    fn arcs(&self) -> usize
        ensures { result ≡ (net self.now).arcs };

    fn source(&self) -> usize
        ensures { result ≡ (net self.now).source };

    fn sink(&self) -> usize
        ensures { result ≡ (net self.now).sink };

    /// How many residual arcs leave the node `v`.
    fn degree(&self, v: usize) -> usize
        requires { v < (net self.now).nodes }
        ensures { result ≡ deg self.now v };

    /// The `i`-th of them.
    fn leaving(&self, v: usize, i: usize) -> usize
        requires { (v < (net self.now).nodes) × (i < deg self.now v) }
        ensures { result ≡ inc self.now v i };

    /// The node that it enters.
    fn target(&self, v: usize, i: usize) -> usize
        requires { (v < (net self.now).nodes) × (i < deg self.now v) }
        ensures { result ≡ to (net self.now) (inc self.now v i) };

    /// The capacity of the arc `k`.
    fn capacity(&self, k: usize) -> u64
        requires { k < (net self.now).arcs }
        ensures { result ≡ (net self.now).cap k };

    /// Fills `flow` with the flow to begin with.
    fn load(&self, flow: &mut [u64])
        requires { length flow.old ≡ (net self.now).arcs }
        ensures { Agree (net self.now).arcs (initial self.now) (at flow.new) };

    ghost lawful: { (x : Self) → Lawful (net x) (deg x) (inc x) };

    ghost begins: { (x : Self) → Flow (net x) (initial x) };
}
