// What a line says.

use curve::lot::Terms;

#[derive(PartialEq, Eq, Debug, Drop)]
pub enum Line {
    // the book's number
    Book(u16),
    // a class of the card, and the bytes of its curve page
    Page(u64, Vec<u8>),
    // a lot place, and the lot
    Add(u64, Terms),
}
