// Pledge tables as flows of a network: definitions in specs/, and the laws about them as contracts.
// Nothing here runs; the functions are there so that the check asks for the proof of each law.
#![tactic(auto)]

ghost use Rattle.table.specs.Laws.{TablesAreFlows, FlowsAreTables, LawfulWithin, PathsAddUp, CoversAll, CoveredAtMaximum, LeastShortage, ReachedExplains, RecordBinds, RecordCuts, RoomIsDrawn, RoundsWithinDrawn, AgreementKeeps};

pub fn tables_are_flows() -> u8
    ensures { TablesAreFlows }
{
    0
}

pub fn flows_are_tables() -> u8
    ensures { FlowsAreTables }
{
    0
}

pub fn lawful_within() -> u8
    ensures { LawfulWithin }
{
    0
}

pub fn paths_add_up() -> u8
    ensures { PathsAddUp }
{
    0
}

pub fn covers_all() -> u8
    ensures { CoversAll }
{
    0
}

pub fn covered_at_maximum() -> u8
    ensures { CoveredAtMaximum }
{
    0
}

pub fn least_shortage() -> u8
    ensures { LeastShortage }
{
    0
}

pub fn reached_explains() -> u8
    ensures { ReachedExplains }
{
    0
}

pub fn record_binds() -> u8
    ensures { RecordBinds }
{
    0
}

pub fn record_cuts() -> u8
    ensures { RecordCuts }
{
    0
}

pub fn room_is_drawn() -> u8
    ensures { RoomIsDrawn }
{
    0
}

pub fn rounds_within_drawn() -> u8
    ensures { RoundsWithinDrawn }
{
    0
}

pub fn agreement_keeps() -> u8
    ensures { AgreementKeeps }
{
    0
}
