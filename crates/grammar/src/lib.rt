// Rule texts: which texts are rules, what they say of a lot, and where a text is at fault. The
// definitions stand in specs/, and the functions here carry the laws that they are shown to have.
#![tactic(auto)]

ghost use Rattle.grammar.specs.Figures.{Figures};
ghost use Rattle.grammar.specs.Laws.{OneFault, OneMeaning, OneTree, Precedence};

// What a rule asks about.
#[derive(Clone, Copy, PartialEq, Eq, Debug)]
pub struct Description {
    pub class: u16,
    pub rating: u16,
    pub months: u16,
    pub issuer: u16,
}

// The fields of a description that a test may name: `c`, `r`, `m`, `i`.
#[derive(Clone, Copy, PartialEq, Eq, Debug)]
pub enum Field {
    Class,
    Rating,
    Months,
    Issuer,
}

// How a test compares the field with its number: `=`, `<`, `>`.
#[derive(Clone, Copy, PartialEq, Eq, Debug)]
pub enum Sign {
    Equal,
    Less,
    Greater,
}

// A text is read in one way at most, and so means one thing at most.
pub fn reading_is_unique() -> u8
    ensures tree { OneTree }
    ensures meaning { OneMeaning }
{
    0
}

// Of a text's faults at most one is the least.
pub fn least_fault_is_unique() -> u8
    ensures { OneFault }
{
    0
}

// `&` binds closer than `|`.
pub fn and_binds_closer() -> u8
    ensures { Precedence }
{
    0
}

// The worked figures.
pub fn figures_hold() -> u8
    ensures { Figures }
{
    0
}
