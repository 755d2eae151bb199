// Tries binders on tables of questions whose answers were worked out by hand from the rules of
// binders: at each edge of a range, of a list and of a switch, and after each refusal. A binder of any
// kind is then held against the same binder put together from its own types, on many questions.
#![tactic(auto)]

mod any;
mod exclusions;
mod pairs;
mod schedules;
mod tables;
mod trials;

use std::io;

fn main(rt: HostRuntime) -> io::Result<()> {
    tables::lots(&rt)?;
    tables::limits(&rt)?;
    tables::loads(&rt)?;
    schedules::lots(&rt)?;
    schedules::loads(&rt)?;
    exclusions::list(&rt)?;
    exclusions::over_pairs(&rt)?;
    pairs::switches(&rt)?;
    pairs::nested(&rt)?;
    any::agrees(&rt)
}
