// The laws of curves, each in the contract of a function that has it proved.

ghost use Rattle.curve.specs.Laws.{SameColumns, SameBytes, OneVerdict, OneCurve, HaircutsRise, OneHaircut, BetweenNeighbours, UpToTheEnd, ValuesFall};

// Points in a list give the same curve as their months and their haircuts, each in a list of its own.
pub fn columns_give_the_points() -> u8
    ensures { SameColumns }
{
    0
}

// A page written from the curve that it gave has the same bytes; a page has one verdict and one curve.
pub fn pages_are_faithful() -> u8
    ensures same { SameBytes }
    ensures verdict { OneVerdict }
    ensures curve { OneCurve }
{
    0
}

// A month has one haircut, between its neighbours', which never falls as months rise; past the last
// point there is none.
pub fn haircuts_are_ordered() -> u8
    ensures rise { HaircutsRise }
    ensures one { OneHaircut }
    ensures between { BetweenNeighbours }
    ensures end { UpToTheEnd }
{
    0
}

// A collateral value never passes the market value, and never rises with the month.
pub fn values_fall() -> u8
    ensures { ValuesFall }
{
    0
}
