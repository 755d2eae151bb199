// A point of a curve, and the points that a curve has.

ghost use Rattle.std.specs.Prelude.{◌≡◌, take};

use crate::curve::Curve;

// A month, and its haircut in ten-thousandths.
#[derive(Clone, Copy, PartialEq, Eq, Debug, Default)]
pub struct Point {
    pub month: u16,
    pub haircut: u16,
}

impl Curve {
    // Its points, without the spare places.
    pub(crate) fn points(&self) -> &[Point]
        ensures { result.now ≡ take self.now.count self.now.points }
    {
        &self.points[..self.count]
    }
}
