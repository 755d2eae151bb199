// The worked figures, proved of the definitions that the contracts cite.
#![tactic(auto)]

ghost use Rattle.figures.specs.Table.{Figures};

pub fn figures_hold() -> u8
    ensures { Figures }
{
    0
}
