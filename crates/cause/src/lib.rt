// Why a call is refused. Every crate answers with one of these causes, and every contract that
// speaks of a refusal's number calls the one definition of it.
#![tactic(auto)]

ghost use Rattle.std.specs.Prelude.{◌≡◌};
ghost use Rattle.cause.specs.Numbers.{number as listed};

use thiserror::Error;

// Each with its words for the person who reads a refusal.
#[derive(Clone, Copy, PartialEq, Eq, Debug, Error)]
pub enum Cause {
    // a curve page
    #[error("page empty, points not 1 to 16, or page length wrong")]
    PageShape,
    #[error("first month not 0, month not rising or over 1200")]
    PageMonth,
    #[error("haircut falling or over 10000")]
    PageHaircut,
    #[error("buffer shorter than the page")]
    BufferShort,
    // a rule text
    #[error("rule text over 1024 bytes")]
    TextLong,
    #[error("byte not expected")]
    ByteUnexpected,
    #[error("number over 65535")]
    NumberLarge,
    #[error("a bracket opens while 16 are open")]
    BracketDeep,
    #[error("more than 64 steps")]
    StepsMany,
    // a binder
    #[error("share, worst rating or longest term over its range")]
    RangePassed,
    #[error("the exclusion already has 32 issuers")]
    ExclusionFull,
    #[error("switch over 16")]
    SwitchLarge,
    // a book
    #[error("lot place over 63 or exposure place over 15")]
    PlaceOutside,
    #[error("a run is open")]
    RunOpen,
    #[error("the place is taken")]
    PlaceTaken,
    #[error("the place is empty")]
    PlaceEmpty,
    #[error("a field is outside its range")]
    FieldOutside,
    #[error("months after the curve's last point")]
    PastCurve,
    #[error("the schedule number is not held")]
    ScheduleUnknown,
    #[error("the lot has a standing pledge")]
    LotPledged,
    #[error("the run number is already 1000000")]
    RunsSpent,
    #[error("the slip is not that of the open run")]
    SlipStale,
    #[error("the list is too short")]
    ListShort,
    #[error("no lawful table covers")]
    NotCovered,
}

impl Cause {
    // The number that the refusal is known by.
    pub fn number(self) -> u8
        ensures { result ≡ listed self }
    {
        match self {
            Cause::PageShape => 1,
            Cause::PageMonth => 2,
            Cause::PageHaircut => 3,
            Cause::BufferShort => 4,
            Cause::TextLong => 5,
            Cause::ByteUnexpected => 6,
            Cause::NumberLarge => 7,
            Cause::BracketDeep => 8,
            Cause::StepsMany => 9,
            Cause::RangePassed => 10,
            Cause::ExclusionFull => 11,
            Cause::SwitchLarge => 12,
            Cause::PlaceOutside => 13,
            Cause::RunOpen => 14,
            Cause::PlaceTaken => 15,
            Cause::PlaceEmpty => 16,
            Cause::FieldOutside => 17,
            Cause::PastCurve => 18,
            Cause::ScheduleUnknown => 19,
            Cause::LotPledged => 20,
            Cause::RunsSpent => 21,
            Cause::SlipStale => 22,
            Cause::ListShort => 23,
            Cause::NotCovered => 24,
        }
    }
}
