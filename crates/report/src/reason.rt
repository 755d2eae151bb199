// Why a call was refused, in words: the cause alone, or the part of it that applies.

ghost use Rattle.std.specs.Prelude.{◌≡◌};
ghost use Rattle.cause.specs.declared.Cause.TheVariants.{PageShape, PageMonth, PageHaircut, FieldOutside};
ghost use Rattle.report.specs.Reasons.{cause_of};

use cause::Cause;
use curve::curve::page::PageFault;
use curve::lot::Terms;
use thiserror::Error;

// Each with its words for the person who reads a refusal.
#[derive(Clone, Copy, PartialEq, Eq, Debug, Error)]
pub enum Reason {
    #[error("{0}")]
    Plain(Cause),
    #[error("page empty")]
    PageEmpty,
    #[error("number of points not 1 to 16")]
    PointsOutside,
    #[error("page length not 1 + 4 times the points")]
    LengthWrong,
    #[error("first month not 0")]
    FirstMonth,
    #[error("month not rising")]
    MonthFalling,
    #[error("month over 1200")]
    MonthLate,
    #[error("haircut falling")]
    HaircutFalling,
    #[error("haircut over 10000")]
    HaircutLarge,
    #[error("lot place over 63")]
    LotPlace,
    #[error("issuer over 255")]
    IssuerLarge,
    #[error("class over 7")]
    ClassLarge,
    #[error("rating not 1 to 22")]
    RatingOutside,
    #[error("months over 1200")]
    MonthsLarge,
    #[error("value not 1 to 100000000000")]
    ValueOutside,
}

impl Reason {
    pub fn cause(self) -> Cause
        ensures { result ≡ cause_of self }
    {
        match self {
            Reason::Plain(cause) => cause,
            Reason::PageEmpty | Reason::PointsOutside | Reason::LengthWrong => Cause::PageShape,
            Reason::FirstMonth | Reason::MonthFalling | Reason::MonthLate => Cause::PageMonth,
            Reason::HaircutFalling | Reason::HaircutLarge => Cause::PageHaircut,
            Reason::LotPlace => Cause::PlaceOutside,
            Reason::IssuerLarge | Reason::ClassLarge | Reason::RatingOutside => Cause::FieldOutside,
            Reason::MonthsLarge | Reason::ValueOutside => Cause::FieldOutside,
        }
    }

    // Why a page is refused: what is wrong with its shape, or with the month or haircut at a point.
    pub fn of_page(fault: PageFault, page: &[u8]) -> Reason
        ensures { cause_of result ≡ fault.cause }
    {
        match fault.cause {
            Cause::PageShape => shape(page),
            Cause::PageMonth => month(page, fault.point),
            Cause::PageHaircut => haircut(page, fault.point),
            cause => Reason::Plain(cause),
        }
    }

    // Why a lot is refused: its place, or the first of its fields that is outside its range.
    pub fn of_lot(cause: Cause, terms: &Terms) -> Reason
        ensures { cause_of result ≡ cause }
    {
        match cause {
            Cause::PlaceOutside => Reason::LotPlace,
            Cause::FieldOutside => field(terms),
            cause => Reason::Plain(cause),
        }
    }
}

fn shape(page: &[u8]) -> Reason
    ensures { cause_of result ≡ PageShape }
{
    match page.first() {
        None => Reason::PageEmpty,
        Some(1..=16) => Reason::LengthWrong,
        Some(_) => Reason::PointsOutside,
    }
}

// The number at a place of a page, which has two bytes, the low one first; none past the page's end.
// After the byte that counts the points, the months stand at the first places, the haircuts at the next.
fn word(page: &[u8], place: usize) -> Option<u16> {
    let (_, words) = page.split_first()?;
    let (words, _) = words.as_chunks::<2>();
    words.get(place).map(|bytes| u16::from_le_bytes(*bytes))
}

fn month(page: &[u8], point: usize) -> Reason
    ensures { cause_of result ≡ PageMonth }
{
    if point == 0 {
        return Reason::FirstMonth;
    }
    match (word(page, point - 1), word(page, point)) {
        (Some(before), Some(month)) if month > before && month > 1200 => Reason::MonthLate,
        _ => Reason::MonthFalling,
    }
}

fn haircut(page: &[u8], point: usize) -> Reason
    ensures { cause_of result ≡ PageHaircut }
{
    if point == 0 {
        return Reason::HaircutLarge;
    }
    let points = page.first().map_or(0, |points| usize::from(*points));
    let place = point.saturating_add(points);
    match word(page, place - 1) {
        Some(before) if word(page, place).unwrap_or(0) < before => Reason::HaircutFalling,
        _ => Reason::HaircutLarge,
    }
}

// The first field that is outside its range; the value, if no other is.
fn field(terms: &Terms) -> Reason
    ensures { cause_of result ≡ FieldOutside }
{
    if terms.issuer > 255 {
        Reason::IssuerLarge
    } else if terms.class > 7 {
        Reason::ClassLarge
    } else if terms.rating < 1 || terms.rating > 22 {
        Reason::RatingOutside
    } else if terms.months > 1200 {
        Reason::MonthsLarge
    } else {
        Reason::ValueOutside
    }
}
