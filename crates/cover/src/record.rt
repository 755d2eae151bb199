// The shortage record: why a shortage cannot be helped.

// The marked exposures, the marked lots, and for each exposure the marked issuers, each at its smallest held lot place; bit `p` stands
// for the place `p`.
#[derive(Clone, Copy, PartialEq, Eq, Debug)]
pub struct Record {
    pub exposures: u16,
    pub lots: u64,
    pub issuers: [u64; 16],
}
