pub mod load;

use crate::curve::Curve;
use crate::curve::page::PageFault;

// One curve for each class, all blank at first.
#[derive(Clone, Copy, PartialEq, Eq, Debug)]
pub struct Card {
    curves: [Curve; 8],
}

// Why a class was not loaded: the fault of its page with the class, or a class over 7.
#[derive(Clone, Copy, PartialEq, Eq, Debug)]
pub enum CardFault {
    Page(PageFault, u64),
    Class(u64),
}
