// The allocation: a table that covers, by Dinic's rounds on the network of the problem, or the least shortage with the record that
// explains it. No memory but arrays of fixed size.
#![tactic(auto)]

mod allocate;
mod answer;
mod drawing;
mod drawn;
mod load;
mod note;
mod pair;
mod position;
mod problem;
mod record;
mod total;

pub use problem::{Lot, Problem, Terms};
pub use record::Record;
