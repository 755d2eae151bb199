// A pledge book: its state, the calls that change it, and the readings.
#![tactic(auto)]

mod asking;
pub mod book;
mod places;
mod pledges;
pub mod slip;
