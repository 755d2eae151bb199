ghost use Rattle.std.specs.Prelude.{◌≡◌, ℕ, ◌<◌, ◌≤◌, MatchResult};
ghost use Rattle.cause.specs.declared.Cause.TheVariants.{PastCurve};
ghost use Rattle.curve.specs.Points.{Haircut, Past};
ghost use Rattle.curve.specs.Page.{Accepted};
ghost use Rattle.curve.specs.Card.{nth_points, Replaced, Loaded, Unloaded, cause_of_load};
ghost use Rattle.curve.specs.Held.{held};

use crate::card::{Card, CardFault};
use crate::curve::Curve;
use cause::Cause;

impl CardFault {
    pub fn cause(self) -> Cause
        ensures { result ≡ cause_of_load self }
    {
        match self {
            CardFault::Page(fault, _) => fault.cause,
            CardFault::Class(_) => Cause::FieldOutside,
        }
    }
}

// The curve of a class from its page.
fn curve_of(class: u64, page: &[u8]) -> Result<Curve, CardFault>
    ensures { MatchResult result
        (λ c. (class ≤ 7) × Accepted page.now (held c))
        (λ e. Unloaded page.now class e) }
{
    let curve = Curve::from_page(page).map_err(|fault| CardFault::Page(fault, class))?;
    if class > 7 {
        return Err(CardFault::Class(class));
    }
    Ok(curve)
}

impl Card {
    pub fn blank() -> Card
        ensures { (k : ℕ) → k < 8 → ((nth_points result.curves k).count ≡ 1) × ((nth_points result.curves k).month 0 ≡ 0) × ((nth_points result.curves k).haircut 0 ≡ 10000) }
    {
        let curve = Curve::blank();
        Card { curves: [curve; 8] }
    }

    // Puts a curve in the place of a class.
    fn put(&mut self, class: usize, curve: Curve)
        requires { class ≤ 7 }
        ensures { Replaced (nth_points self.old.curves) (nth_points self.new.curves) class (held curve) }
    {
        self.curves[class] = curve;
    }

    // Loads the curve of a class from its page and returns the number of its points. A refusal
    // leaves the card.
    pub fn load(&mut self, class: u64, page: &[u8]) -> Result<usize, CardFault>
        ensures { MatchResult result
            (λ n. Loaded page.now class (nth_points self.old.curves) (nth_points self.new.curves) n)
            (λ e. Unloaded page.now class e × (self.new ≡ self.old)) }
    {
        let curve = curve_of(class, page)?;
        self.put(class as usize, curve);
        Ok(curve.count())
    }

    // The haircut of a class at a month.
    pub(crate) fn haircut(&self, class: u64, month: u64) -> Result<u16, Cause>
        requires { class ≤ 7 }
        ensures { MatchResult result
            (λ h. Haircut (nth_points self.now.curves class) month h × (h ≤ 10000))
            (λ e. (e ≡ PastCurve) × Past (nth_points self.now.curves class) month) }
    {
        self.curves[class as usize].haircut(month)
    }
}
