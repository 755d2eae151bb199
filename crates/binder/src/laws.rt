// The laws of tables and layers, each in the contract of a function that has it proved.

ghost use Rattle.binder.specs.Laws.{Tables, Excludes, ExclusionsCommute, ExclusionsDistribute, PairAtEnds, PairsAssociate, LayersLawful};

// Worst rating 0 admits none, and a better rating or a shorter term is never a reason to refuse.
pub fn tables_are_ordered() -> u8
    ensures { Tables }
{
    0
}

// An exclusion takes out the listed issuers and nothing else, and in any order.
pub fn exclusions_are_exact() -> u8
    ensures exact { Excludes }
    ensures commute { ExclusionsCommute }
    ensures distribute { ExclusionsDistribute }
{
    0
}

// A pair is its first binder at 16 and its second at 0, and pairs associate.
#[tactic(auto, using(crate::proofs::Past::first_at_16, crate::proofs::Past::second_at_0))]
pub fn pairs_are_exact() -> u8
    ensures ends { PairAtEnds }
    ensures associate { PairsAssociate }
{
    0
}

// Exclusions and pairs of lawful binders are lawful.
pub fn layers_are_lawful() -> u8
    ensures { LayersLawful }
{
    0
}
