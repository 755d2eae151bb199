// A drawn network with the flow that the rounds start from.

ghost use Rattle.std.specs.Prelude.{◌≡◌, length};
ghost use Rattle.cover.specs.Picture.{pictured};
ghost use Rattle.cover.specs.Loading.{Within, Conserved};

mod net;

use crate::drawn::Drawn;
use crate::pair::ARCS;

#[derive(Drop)]
pub struct Position<'a> {
    pub drawn: &'a Drawn<'a>,
    pub first: [u64; ARCS],
    ghost arcs: { length first ≡ 2128 },
    ghost within: { Within (pictured drawn.now) first },
    ghost conserved: { Conserved (pictured drawn.now) first },
}
