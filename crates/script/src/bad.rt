// A line that is no order: what was expected at the place that could not be read, and what stands there.

use std::alloc::AllocError;
use thiserror::Error;

#[derive(Clone, Copy, PartialEq, Eq, Debug, Error)]
pub enum Expected {
    // the first word of a line
    #[error("book, page or add")]
    Order,
    #[error("a number from 0 to 18446744073709551615")]
    Number,
    #[error("a byte in hexadecimal, 00 to FF")]
    HexByte,
    #[error("the word {0}")]
    Word(&'static str),
    #[error("the end of the line")]
    End,
    // a book number over 65,535
    #[error("a book number from 0 to 65535")]
    BookNumber,
    // another line before the book is opened
    #[error("book NUMBER as the first line")]
    BookFirst,
    // a second `book`
    #[error("no second book")]
    BookOnce,
    // a set-up line after the first call
    #[error("set-up lines before the first call")]
    SetUpFirst,
}

#[derive(Clone, Copy, PartialEq, Eq, Debug, Error)]
#[error("expected {expected}, found {}", .found.unwrap_or("the end of the line"))]
pub struct BadLine<'a> {
    pub expected: Expected,
    pub found: Option<&'a str>,
}

// Why a line was not read: it is bad, or there was no memory for it.
#[derive(Clone, Copy, PartialEq, Eq, Debug, Error)]
pub enum Unread<'a> {
    #[error("{0}")]
    Bad(#[from] BadLine<'a>),
    #[error("{0}")]
    Memory(#[from(alloc)] AllocError),
}
