// A day of one book, played line by line.
#![tactic(auto)]

pub mod state;
