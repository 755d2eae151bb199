// Lots at the ends of their ranges; a card that keeps what a refused page would have replaced.

use cause::Cause;
use curve::card::Card;
use curve::lot::Terms;
use tally::Tally;

// What comes of a lot: its collateral value, or a cause's number.
fn value_of(card: &Card, terms: Terms) -> Result<u64, u8> {
    terms
        .price(card)
        .map(|lot| lot.worth)
        .map_err(Cause::number)
}

// What comes of loading a class: the number of its points, or a cause's number.
fn load(card: &mut Card, class: u64, page: &[u8]) -> Result<usize, u8> {
    card.load(class, page)
        .map_err(|fault| fault.cause().number())
}

// A lot of class 0 at a month.
fn at(months: u64, market: u64) -> Terms {
    Terms {
        issuer: 3,
        class: 0,
        rating: 5,
        months,
        market,
    }
}

// Months 0, 60, 360 with haircuts 100, 400, 2,000.
const PAGE: [u8; 13] = [
    0x03, 0x00, 0x00, 0x3C, 0x00, 0x68, 0x01, 0x64, 0x00, 0x90, 0x01, 0xD0, 0x07,
];

// Months, a market value, and what should come of the lot under that page.
const VALUES: [(u64, u64, Result<u64, u8>); 18] = [
    (0, 1_000_000, Ok(990_000)),
    (30, 1_000_000, Ok(975_000)),
    (59, 1_000_000, Ok(960_500)),
    (60, 1_000_000, Ok(960_000)),
    (61, 1_000_000, Ok(959_400)),
    (359, 1_000_000, Ok(800_500)),
    (360, 1_000_000, Ok(800_000)),
    (361, 1_000_000, Err(18)),
    (600, 1_000_000, Err(18)),
    (1200, 1_000_000, Err(18)),
    (1201, 1_000_000, Err(17)),
    (0, 0, Err(17)),
    (0, 1, Ok(0)),
    (0, 2, Ok(1)),
    (0, 100_000_000_000, Ok(99_000_000_000)),
    (0, 100_000_000_001, Err(17)),
    (0, u64::MAX, Err(17)),
    (u64::MAX, 1, Err(17)),
];

fn try_values(tally: &mut Tally, card: &Card) {
    for (months, market, expected) in VALUES {
        tally.note(value_of(card, at(months, market)) == expected);
    }
}

fn try_fields(tally: &mut Tally, card: &Card) {
    let lot = at(0, 1_000_000);
    let late = at(1, 1_000_000);
    let rows = [
        (Terms { issuer: 0, ..lot }, Ok(990_000)),
        (Terms { issuer: 255, ..lot }, Ok(990_000)),
        (Terms { issuer: 256, ..lot }, Err(17)),
        (Terms { class: 1, ..lot }, Ok(0)),
        (Terms { class: 7, ..lot }, Ok(0)),
        (Terms { class: 8, ..lot }, Err(17)),
        (Terms { rating: 0, ..lot }, Err(17)),
        (Terms { rating: 1, ..lot }, Ok(990_000)),
        (Terms { rating: 22, ..lot }, Ok(990_000)),
        (Terms { rating: 23, ..lot }, Err(17)),
        // a blank curve ends at month 0; a field outside its range comes before a month past the curve
        (Terms { class: 1, ..late }, Err(18)),
        (at(361, 0), Err(17)),
    ];
    for (terms, expected) in rows {
        tally.note(value_of(card, terms) == expected);
    }
}

// Haircuts of 0 and of 10,000, a curve to month 1,200, and refusals that leave the card.
fn try_loads(tally: &mut Tally, card: &mut Card) {
    tally.note(load(card, 8, &PAGE) == Err(17));
    tally.note(load(card, u64::MAX, &PAGE) == Err(17));
    tally.note(load(card, 8, &[]) == Err(1));
    tally.note(load(card, 0, &[1, 1, 0, 0, 0]) == Err(2));
    tally.note(load(card, 0, &[1, 0, 0, 0x11, 0x27]) == Err(3));
    tally.note(value_of(card, at(30, 1_000_000)) == Ok(975_000));
    tally.note(load(card, 0, &[1, 0, 0, 0, 0]) == Ok(1));
    tally.note(value_of(card, at(0, 100_000_000_000)) == Ok(100_000_000_000));
    tally.note(load(card, 0, &[1, 0, 0, 0x10, 0x27]) == Ok(1));
    tally.note(value_of(card, at(0, 100_000_000_000)) == Ok(0));
    tally.note(load(card, 0, &[2, 0, 0, 0xB0, 0x04, 0, 0, 0x10, 0x27]) == Ok(2));
    tally.note(value_of(card, at(1199, 100_000_000_000)) == Ok(80_000_000));
    tally.note(value_of(card, at(1200, 100_000_000_000)) == Ok(0));
}

pub(crate) fn try_lots() -> Tally {
    let mut tally = Tally::new();
    let mut card = Card::blank();
    tally.note(value_of(&card, at(0, 1)) == Ok(0));
    tally.note(load(&mut card, 0, &PAGE) == Ok(3));
    try_values(&mut tally, &card);
    try_fields(&mut tally, &card);
    try_loads(&mut tally, &mut card);
    tally
}
