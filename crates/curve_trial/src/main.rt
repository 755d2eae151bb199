// Curves tried by hand and by a second method: pages at their edges, buffers, lots at their ranges, and
// curves from a seed, whose haircuts are found once more by stepping from month to month.
#![tactic(auto)]

mod draw;
mod lots;
mod pages;
mod seeded;
mod step;

use std::{fmt, io};
use tally::Tally;

// How many trials were right and how many wrong.
#[derive(Clone, Copy)]
struct Counts(Tally);

impl fmt::Display for Counts {
    fn fmt<W: fmt::Write>(&self, f: &mut fmt::Formatter<W>) -> fmt::Result {
        let Tally { right, wrong, .. } = self.0;
        write!(f, "{right} right, {wrong} wrong")
    }
}

fn main(rt: HostRuntime) -> io::Result<()> {
    let heap = rt.alloc();
    let pages = Counts(pages::try_pages(heap)?);
    println!(rt; "pages: {pages}")?;
    let writes = Counts(pages::try_writes(heap)?);
    println!(rt; "writes: {writes}")?;
    let lots = Counts(lots::try_lots());
    println!(rt; "lots: {lots}")?;
    let curves = 3000;
    let (months, tally) = seeded::try_seeded(heap, curves)?;
    let answers = Counts(tally);
    println!(rt; "from a seed: {curves} curves, {months} months: {answers}")
}
