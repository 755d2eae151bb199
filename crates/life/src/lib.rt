// A book and the orders that it is given: they are carried out one after the other on one book under one binder, and the
// law over all lives of a book holds of every session.
#![tactic(auto)]

mod holder;
pub mod order;
pub mod session;
