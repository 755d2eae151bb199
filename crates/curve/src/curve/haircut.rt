// The haircut at a month.

ghost use Rattle.std.specs.Prelude.{◌≡◌, ℕ, ◌+◌, ◌-◌, ◌*◌, ◌^◌, ◌<◌, ◌≤◌, MatchResult};
ghost use Rattle.cause.specs.declared.Cause.TheVariants.{PastCurve};
ghost use Rattle.curve.specs.Points.{quotient_up as up, between as between_points, Haircut, Past};
ghost use Rattle.curve.specs.Held.{held};

use crate::curve::Curve;
use crate::curve::point::Point;
use cause::Cause;

// A quotient rounded up. In 32 bits, which hold every rise between two points and divide faster than 64.
#[tactic(auto, using(crate::proofs::Rounding::div_ceil_up))]
fn rounded_up(x: u32, d: u32) -> u32
    requires { 0 < d }
    ensures { result ≡ up x d }
{
    x.div_ceil(d)
}

// The haircut between two points, rounded up.
#[tactic(auto, using(crate::proofs::Rounding::rise_le))]
fn between(from: Point, to: Point, month: u64) -> u16
    requires { (from.month < month) × (month < to.month) × (from.haircut ≤ to.haircut) }
    ensures { result ≡ between_points from.month from.haircut to.month to.haircut month }
{
    let rise = u32::from(to.haircut - from.haircut) * (month as u32 - u32::from(from.month));
    from.haircut + rounded_up(rise, u32::from(to.month - from.month)) as u16
}

impl Curve {
    // How many points stand at or before the month: at least one, since the first stands at 0.
    fn reached(&self, month: u64) -> usize
        ensures { (1 ≤ result) × (result ≤ self.now.count) × ((held self.now).month (result - 1) ≤ month) × (result < self.now.count → month < (held self.now).month result) }
    {
        // a plain walk from the second point on: over so few points `partition_point` and `find` take longer
        let mut n = 1;
        while n < self.count && u64::from(self.points[n].month) <= month {
            n += 1;
        }
        n
    }

    // The haircut at a month, `n` points being at or before it: the last of them has its own.
    fn within(&self, n: usize, month: u64) -> u16
        requires place { (1 ≤ n) × (n ≤ self.now.count) × ((held self.now).month (n - 1) ≤ month) }
        requires next { n < self.now.count → month < (held self.now).month n }
        requires last { n ≡ self.now.count → month ≡ (held self.now).month (n - 1) }
        ensures { Haircut (held self.now) month result × (result ≤ 10000) }
    {
        let last = self.points[n - 1];
        if u64::from(last.month) == month {
            return last.haircut;
        }
        between(last, self.points[n], month)
    }

    // A point has its own haircut; after the last point there is none.
    pub fn haircut(&self, month: u64) -> Result<u16, Cause>
        ensures { MatchResult result
            (λ h. Haircut (held self.now) month h × (h ≤ 10000))
            (λ e. (e ≡ PastCurve) × Past (held self.now) month) }
    {
        let n = self.reached(month);
        if n == self.count && month > u64::from(self.points[n - 1].month) {
            return Err(Cause::PastCurve);
        }
        Ok(self.within(n, month))
    }
}
