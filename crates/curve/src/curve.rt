ghost use Rattle.std.specs.Prelude.{◌≡◌, ◌≤◌, length};
ghost use Rattle.curve.specs.Points.{NoneBelow, month_breaks, haircut_breaks};
ghost use Rattle.curve.specs.Listed.{listed};

pub mod haircut;
pub mod page;
pub mod point;
pub mod write;

use crate::curve::point::Point;

// 1 to 16 points. The month of the first is 0, months rise, haircuts never fall: a curve that
// breaks this cannot be made.
#[derive(Clone, Copy, PartialEq, Eq, Debug)]
pub struct Curve {
    // beside the array, and no vector with a length of its own: a curve is Copy, and those are not
    count: usize,
    points: [Point; 16],
    ghost some: { (1 ≤ count) × (count ≤ 16) },
    ghost rising: { NoneBelow count (month_breaks (listed count points).month) },
    ghost falling: { NoneBelow count (haircut_breaks (listed count points).haircut) },
}

impl Curve {
    // How many points there are.
    pub fn count(&self) -> usize
        ensures { result ≡ self.now.count }
    {
        self.count
    }
}
