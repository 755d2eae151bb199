// A curve from its page, and a page from its curve.

ghost use Rattle.std.specs.Prelude.{◌≡◌, ℕ, ◌+◌, ◌*◌, ◌<◌, ◌≤◌, true, false, ◌&&◌, length, MatchResult, ◌==◌, nat_le, nat_lt, slice_index};
ghost use Rattle.curve.specs.Page.{Spelt, Page, First, Accepted, Refused};
ghost use Rattle.curve.specs.Points.{month_breaks, haircut_breaks};
ghost use Rattle.curve.specs.Listed.{point_at};
ghost use Rattle.curve.specs.Held.{held};
ghost use Rattle.cause.specs.declared.Cause.TheVariants.{PageShape};

use crate::curve::Curve;
use crate::curve::point::Point;
use crate::reader::{Ended, Reader};
use cause::Cause;

// Why a page is refused, and the first point at fault (from 0).
#[derive(Clone, Copy, PartialEq, Eq, Debug)]
pub struct PageFault {
    pub cause: Cause,
    pub point: usize,
}

// A page whose bytes have not the shape of any page.
const MISSHAPEN: PageFault = PageFault {
    cause: Cause::PageShape,
    point: 0,
};

impl From<Ended> for PageFault {
    ghost from_gives = { λ _ r. r ≡ record { cause = PageShape; point = 0 } };

    fn from(_: Ended) -> PageFault {
        MISSHAPEN
    }
}

// The number of points, if the page has the length that goes with it.
fn counted(page: &[u8]) -> Result<usize, PageFault>
    ensures { MatchResult result
        (λ n. (n ≡ slice_index page.now 0) × (1 ≤ n) × (n ≤ 16) × (length page.now ≡ 1 + 4 * n))
        (λ e. Refused page.now e.cause e.point) }
{
    let count = usize::from(Reader::new(page).byte()?);
    if count == 0 || count > 16 || page.len() != 1 + 4 * count {
        return Err(MISSHAPEN);
    }
    Ok(count)
}

// The points of a page that has `count` of them, lawful or not.
fn points_of(page: &[u8], count: usize) -> Result<[Point; 16], Ended>
    requires { (count ≤ 16) × (length page.now ≡ 1 + 4 * count) }
    ensures { MatchResult result
        (λ ps. ((j : ℕ) → j < count → Spelt page.now (1 + 2 * j) (point_at ps j).month × Spelt page.now (1 + 2 * count + 2 * j) (point_at ps j).haircut))
        (λ _. ⊥) }
{
    let mut points = [Point::default(); 16];
    let mut months = Reader::starting(page, 1);
    let mut haircuts = Reader::starting(page, 1 + 2 * count);
    for point in &mut points[..count] {
        *point = Point {
            month: months.word()?,
            haircut: haircuts.word()?,
        };
    }
    Ok(points)
}

// Whether the month at `j` breaks the rule of months.
fn breaks_months(points: &[Point], j: usize) -> bool
    requires { j < length points.now }
    ensures { result ≡ month_breaks (λ k. (point_at points.now k).month) j }
{
    let month = points[j].month;
    (j == 0 && month > 0) || (j > 0 && month <= points[j - 1].month) || month > 1200
}

// Whether the haircut at `j` breaks the rule of haircuts.
fn breaks_haircuts(points: &[Point], j: usize) -> bool
    requires { j < length points.now }
    ensures { result ≡ haircut_breaks (λ k. (point_at points.now k).haircut) j }
{
    let haircut = points[j].haircut;
    (j > 0 && haircut < points[j - 1].haircut) || haircut > 10_000
}

// Refuses the first of `count` points that breaks a rule, for the cause of that rule. A rule is asked by
// the point's place, since it compares the point with the one before.
fn refuse_first<F: Fn(usize) -> bool>(
    count: usize,
    cause: Cause,
    breaks: F,
) -> Result<(), PageFault>
    requires { (j : ℕ) → j < count → F.pre breaks j }
    ensures { MatchResult result
        (λ _. (j : ℕ) → j < count → F.post breaks j false)
        (λ e. (e.cause ≡ cause) × (e.point < count) × F.post breaks e.point true × ((j : ℕ) → j < e.point → F.post breaks j false)) }
{
    for point in 0..count {
        if breaks(point) {
            return Err(PageFault { cause, point });
        }
    }
    Ok(())
}

impl Curve {
    // Month 0 with haircut 10,000: nothing has a value under it but at month 0, and there none.
    pub fn blank() -> Curve
        ensures { (result.count ≡ 1) × ((held result).month 0 ≡ 0) × ((held result).haircut 0 ≡ 10000) }
    {
        let mut points = [Point::default(); 16];
        points[0].haircut = 10_000;
        Curve { count: 1, points }
    }

    // The curve of a page that has `count` points.
    fn of_points(page: &[u8], count: usize) -> Result<Curve, PageFault>
        requires { (count ≡ slice_index page.now 0) × (1 ≤ count) × (count ≤ 16) × (length page.now ≡ 1 + 4 * count) }
        ensures { MatchResult result (λ c. Accepted page.now (held c)) (λ e. Refused page.now e.cause e.point) }
    {
        let points = points_of(page, count)?;
        refuse_first(count, Cause::PageMonth, |j| breaks_months(&points, j))?;
        refuse_first(count, Cause::PageHaircut, |j| breaks_haircuts(&points, j))?;
        Ok(Curve { count, points })
    }

    // The curve of a page. Inlined, so that a page of a wrong shape is refused before there is room for a curve.
    #[inline(always)]
    pub(crate) fn from_page(page: &[u8]) -> Result<Curve, PageFault>
        ensures { MatchResult result (λ c. Accepted page.now (held c)) (λ e. Refused page.now e.cause e.point) }
    {
        let count = counted(page)?;
        Curve::of_points(page, count)
    }

    // Fills this curve from its page and returns the number of points. A refused page leaves it.
    pub fn read(&mut self, page: &[u8]) -> Result<usize, PageFault>
        ensures { MatchResult result
            (λ n. Accepted page.now (held self.new) × (n ≡ self.new.count))
            (λ e. Refused page.now e.cause e.point × (self.new ≡ self.old)) }
    {
        let curve = Curve::from_page(page)?;
        *self = curve;
        Ok(curve.count)
    }
}
