// What each call on a pledge book does, as one relation over its state; the lives of a book, and the
// law over all of them. Definitions and laws; the plain types that the calls take and give.
#![tactic(auto)]

ghost use Rattle.calls.specs.Laws.{EveryLifeSound, SmallestCause, ToldByCalls};

// An exposure: a lender's loan that wants cover.
#[derive(Clone, Copy, PartialEq, Eq, Debug)]
pub struct Exposure {
    pub amount: u64,
    pub schedule: u64,
}

// A change of one pledge: what the lot at a place pledges to the exposure at a place, more or less.
#[derive(Clone, Copy, PartialEq, Eq, Debug)]
pub struct Instruction {
    pub lot: u8,
    pub exposure: u8,
    pub amount: i64,
}

// A call is refused for the cause with the smallest number of those that apply to it. Where none
// applies, it is granted; only an allocation may still be short, which is a statement about all tables.
pub fn smallest_cause_is_given() -> u8
    ensures { SmallestCause }
{
    0
}

// At the opening and after every call of every life: both tables are lawful, an allocation is granted
// exactly if some lawful table covers, and the instructions add up to the standing pledges.
pub fn every_life_is_sound() -> u8
    ensures { EveryLifeSound }
{
    0
}

// Which lots are held and with what value, which exposures are open and on what terms, and whether a
// run is open, at every moment of every life: as the calls granted until then say, and they alone.
pub fn held_by_granted_calls() -> u8
    ensures { ToldByCalls }
{
    0
}
