// Haircut curves: the page they travel in, the haircut at a month, the curve card, and a lot's
// collateral value.
#![tactic(auto)]

pub mod card;
pub mod curve;
pub mod laws;
pub mod lot;
pub mod reader;
