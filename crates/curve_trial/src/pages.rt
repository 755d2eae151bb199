// Pages at their edges, and buffers that fit, are longer, or are shorter by one byte.

use crate::draw::{Change, Draft};
use Change::{Haircut, Month};
use cause::Cause;
use curve::curve::Curve;
use std::alloc::{AllocError, Global};
use tally::Tally;

// What comes of a page: its number of points, or a cause's number and the point at fault.
type Read = Result<usize, (u8, usize)>;

fn try_page(tally: &mut Tally, page: &[u8], expected: Read) {
    let read = Curve::blank()
        .read(page)
        .map_err(|fault| (fault.cause.number(), fault.point));
    tally.note(read == expected);
}

// The shape: no byte, the number of points, and lengths that are off by one.
fn try_short(tally: &mut Tally) {
    let rows: [(&[u8], Read); 7] = [
        (&[], Err((1, 0))),
        (&[0], Err((1, 0))),
        (&[0, 0, 0, 0, 0], Err((1, 0))),
        (&[1], Err((1, 0))),
        (&[1, 0, 0, 0], Err((1, 0))),
        (&[1, 0, 0, 0, 0], Ok(1)),
        (&[1, 0, 0, 0, 0, 0], Err((1, 0))),
    ];
    for (page, expected) in rows {
        try_page(tally, page, expected);
    }
}

// 16 points and 17, a byte less and a byte more.
fn try_long(tally: &mut Tally, heap: Global) -> Result<(), AllocError> {
    let mut page = Draft::even(heap, 16)?.page(heap)?;
    try_page(tally, page.as_slice(), Ok(16));
    try_page(
        tally,
        Draft::even(heap, 17)?.page(heap)?.as_slice(),
        Err((1, 0)),
    );
    if let Some((_, shorter)) = page.split_last() {
        try_page(tally, shorter, Err((1, 0)));
    }
    page.push(0)?;
    try_page(tally, page.as_slice(), Err((1, 0)));
    // a wrong length comes before a wrong month
    try_page(tally, &[1, 1, 0, 0], Err((1, 0)));
    Ok(())
}

// 16 points of which one or two are changed.
fn try_changed(
    tally: &mut Tally,
    heap: Global,
    changes: &[Change],
    expected: Read,
) -> Result<(), AllocError> {
    let mut draft = Draft::even(heap, 16)?;
    for change in changes {
        draft.set(*change);
    }
    try_page(tally, draft.page(heap)?.as_slice(), expected);
    Ok(())
}

// Months: the first, the second and the last at fault.
fn try_months(tally: &mut Tally, heap: Global) -> Result<(), AllocError> {
    let rows: [(&[Change], Read); 10] = [
        (&[Month(0, 1)], Err((2, 0))),
        (&[Month(0, 65535)], Err((2, 0))),
        (&[Month(1, 0)], Err((2, 1))),
        (&[Month(1, 1)], Ok(16)),
        (&[Month(15, 980)], Err((2, 15))),
        (&[Month(15, 981)], Ok(16)),
        (&[Month(15, 1200)], Ok(16)),
        (&[Month(15, 1201)], Err((2, 15))),
        // a month at fault comes before a haircut at fault, also at a later point
        (&[Month(15, 0), Haircut(0, 10_001)], Err((2, 15))),
        // of two months at fault the first
        (&[Month(14, 1201), Month(15, 0)], Err((2, 14))),
    ];
    for (changes, expected) in rows {
        try_changed(tally, heap, changes, expected)?;
    }
    Ok(())
}

// Haircuts: the first, the second and the last at fault.
fn try_haircuts(tally: &mut Tally, heap: Global) -> Result<(), AllocError> {
    try_page(tally, &[1, 0, 0, 0x10, 0x27], Ok(1));
    try_page(tally, &[1, 0, 0, 0x11, 0x27], Err((3, 0)));
    let rows = [
        (Haircut(0, 0), Ok(16)),
        (Haircut(0, 10_001), Err((3, 0))),
        (Haircut(1, 249), Err((3, 1))),
        (Haircut(1, 250), Ok(16)),
        (Haircut(15, 3749), Err((3, 15))),
        (Haircut(15, 3750), Ok(16)),
        (Haircut(15, 10_000), Ok(16)),
        (Haircut(15, 10_001), Err((3, 15))),
    ];
    for (change, expected) in rows {
        try_changed(tally, heap, &[change], expected)?;
    }
    Ok(())
}

pub(crate) fn try_pages(heap: Global) -> Result<Tally, AllocError> {
    let mut tally = Tally::new();
    try_short(&mut tally);
    try_long(&mut tally, heap)?;
    try_months(&mut tally, heap)?;
    try_haircuts(&mut tally, heap)?;
    Ok(tally)
}

// A curve written into a buffer of `size` bytes of 0xAA: it is the page where it fits, and the rest stays.
fn try_write(tally: &mut Tally, heap: Global, page: &[u8], size: usize) -> Result<(), AllocError> {
    let mut curve = Curve::blank();
    tally.note(curve.read(page).is_ok());
    let mut buffer = vec![in heap; 0xAAu8; size]?;
    let written = curve.write(buffer.as_mut_slice());
    let fits = page.len() <= size;
    let expected = if fits { Ok(page.len()) } else { Err(4) };
    tally.note(written.map_err(Cause::number) == expected);
    let start = if fits { page } else { &[] };
    for (k, byte) in buffer.iter().enumerate() {
        tally.note(*byte == *start.get(k).unwrap_or(&0xAA));
    }
    Ok(())
}

fn try_sizes(tally: &mut Tally, heap: Global, count: u8) -> Result<(), AllocError> {
    let page = Draft::even(heap, count)?.page(heap)?;
    let size = 1 + 4 * usize::from(count);
    for size in [size, size + 9, size - 1, 0] {
        try_write(tally, heap, page.as_slice(), size)?;
    }
    Ok(())
}

pub(crate) fn try_writes(heap: Global) -> Result<Tally, AllocError> {
    let mut tally = Tally::new();
    for count in 1..=16 {
        try_sizes(&mut tally, heap, count)?;
    }
    Ok(tally)
}
