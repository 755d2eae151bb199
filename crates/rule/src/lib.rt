// A rule is read from its text and answers for a lot's description.
//
//     bytes -> marks -> reader -> steps -> answer
//
// Each byte becomes a mark, the reader refuses the first mark that does not fit and writes the rule
// down as at most 64 steps in postfix order, and a rule that is asked runs them. Reading takes time
// in proportion to the text, asking in proportion to the steps; nothing is allocated.
#![tactic(auto)]

ghost use Rattle.rule.specs.Says.{Decided};

mod fault;
mod held;
mod steps;
mod text;

pub use fault::TextFault;
pub use held::Rule;

// Every text is accepted with a meaning or has a least fault, and reading finds out which.
pub fn every_text_is_decided() -> u8
    ensures { Decided }
{
    0
}
