use crate::holder::Holder;
use binder::Binder;
use curve::card::Card;

pub mod plays;

// One book, with the slip of its open run, and the one binder and the card that serve all its calls.
pub struct Session<B: Binder> {
    holder: Holder,
    binder: B,
    card: Card,
}
