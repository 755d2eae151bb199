// What came of a line, in words for the person who reads it.
#![tactic(auto)]

pub mod outcome;
pub mod reason;
