// A rule that a caller holds: the steps that its text was read as.

ghost use Rattle.std.specs.Prelude.{◌≤◌};
ghost use Rattle.grammar.specs.Grammar.{most_steps};

use crate::fault::TextFault;
use crate::steps::{Answers, Step};
use crate::text::Level;
use crate::text::reader::read;
use grammar::Description;

pub const MOST_STEPS: usize = 64;

// Those who hold rules copy them, and the vectors of arrayvec are not Copy, so a length stands beside
// the steps.
#[derive(Clone, Copy, PartialEq, Eq, Debug)]
pub struct Rule {
    steps: [Step; MOST_STEPS],
    len: usize,
    ghost bound: { len ≤ most_steps },
}

impl Rule {
    ghost use Rattle.std.specs.Prelude.{◌≡◌, ◌+◌, false, [], ◌∷◌, ◌++◌};
    ghost use Rattle.grammar.specs.declared.Description.{Description as Described};
    ghost use Rattle.rule.specs.Machine.{bit, step_if, finished, ended as ended_by};
    ghost use Rattle.rule.specs.Says.{says, Loaded};
    ghost use Rattle.rule.specs.Views.{code, HasRoom};

    // A rule that says no to everything.
    pub fn blank() -> Rule
        ensures no { (x : Described) → says result x ≡ false }
        ensures steps { code result ≡ [] }
    {
        Rule {
            steps: [Step::Negate; MOST_STEPS],
            len: 0,
        }
    }

    // Reads the text into the rule. A text that is refused leaves it as it was.
    pub fn load(&mut self, text: &[u8]) -> Result<(), TextFault>
        ensures { Loaded text.now self.old self.new result }
    {
        *self = read(text)?;
        Ok(())
    }

    // What the rule says of a lot: its steps are run over a stack of answers.
    pub fn ask(&self, lot: Description) -> bool
        ensures { result ≡ says self.now lot }
    {
        let mut answers = Answers::none();
        for step in &self.steps[..self.len] {
            step.run(lot, &mut answers);
        }
        answers.top()
    }

    pub(crate) fn push(&mut self, step: Step)
        requires { HasRoom self.old 1 }
        ensures { code self.new ≡ code self.old ++ step ∷ [] }
    {
        self.steps[self.len] = step;
        self.len += 1;
    }

    fn push_if(&mut self, wanted: bool, step: Step)
        requires { HasRoom self.old (bit wanted) }
        ensures { code self.new ≡ code self.old ++ step_if wanted step }
    {
        if wanted {
            self.push(step);
        }
    }

    // What waited for a factor is written after it.
    pub(crate) fn finish(&mut self, level: Level)
        requires { HasRoom self.old (bit level.negated + bit level.both) }
        ensures { code self.new ≡ finished level (code self.old) }
    {
        self.push_if(level.negated, Step::Negate);
        self.push_if(level.both, Step::Both);
    }

    // What waited for a term is written after it.
    pub(crate) fn end(&mut self, level: Level)
        requires { HasRoom self.old (bit level.either) }
        ensures { code self.new ≡ ended_by level (code self.old) }
    {
        self.push_if(level.either, Step::Either);
    }
}
