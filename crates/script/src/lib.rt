// The text format of the program: what a line says.
#![tactic(auto)]

pub mod bad;
pub mod line;
pub mod number;
pub mod read;
pub mod words;
