// The record of what the last search for layers reached, where it did not reach the sink.

ghost use Rattle.std.specs.Prelude.{◌≡◌, ℕ, ◌^◌, ◌<◌, ◌≤◌};
ghost use Rattle.words.specs.Word.{bit};
ghost use Rattle.table.specs.Record.{SameMarks};
ghost use Rattle.cover.specs.View.{at};
ghost use Rattle.cover.specs.Answer.{noted};
ghost use Rattle.cover.specs.Marked.{marked};

use crate::drawn::Drawn;
use crate::pair::{EXPOSURE_NODES, EXPOSURES, LOT_NODES, LOTS, NODES, Pair};
use crate::record::Record;
use words::pack;

// A drawn network with the marks of a search, which are above 0 at the nodes that it reached.
#[derive(Clone, Copy)]
pub struct Reached<'a> {
    pub drawn: &'a Drawn<'a>,
    pub mark: &'a [u32; NODES],
}

// The word whose bit `p` is the answer at the place `p`.
fn word<const N: usize, F: Fn(usize) -> bool>(marked: F) -> u64
    requires few { N ≤ 64 }
    requires asked { (p : ℕ) → p < N → F.pre marked p }
    ensures bits { (p : ℕ) → p < N → F.post marked p (bit result p) }
    ensures low { result < 2 ^ N }
{
    // No `array::from_fn`: it was tried, and no proof found that its closure keeps what it borrows.
    let mut flags = [false; N];
    for (p, flag) in flags.iter_mut().enumerate() {
        *flag = marked(p);
    }
    pack(&flags)
}

// Places are numbers below their bounds here, and no type of their own: each comes from a loop over them.
impl Reached<'_> {
    // An open exposure is marked where it is not reached.
    fn exposure_marked(&self, e: usize) -> bool
        requires { e < 16 }
        ensures { result ≡ (marked self.now).exposures e }
    {
        let is_open = self.drawn.problem.exposures[e].is_some();
        is_open && self.mark[EXPOSURE_NODES + e] == 0
    }

    // A held lot is marked where it is not reached.
    fn lot_marked(&self, l: usize) -> bool
        requires { l < 64 }
        ensures { result ≡ (marked self.now).lots l }
    {
        let held = self.drawn.problem.lots[l].is_some();
        held && self.mark[LOT_NODES + l] == 0
    }

    // An issuer is marked at a marked exposure where its cell there is reached.
    fn issuer_marked(&self, exposure: usize, lot: usize) -> bool
        requires { (exposure < 16) × (lot < 64) }
        ensures { result ≡ (marked self.now).issuers exposure lot }
    {
        let held = self.drawn.problem.lots[lot].is_some();
        let leads = held && self.drawn.slots[lot] == lot;
        let cell = Pair::new(lot, exposure).cell();
        self.exposure_marked(exposure) && leads && self.mark[cell] > 0
    }

    // The marked exposures.
    fn exposure_word(&self) -> u16
        ensures { (e : ℕ) → e < 16 → bit result e ≡ (marked self.now).exposures e }
    {
        word::<EXPOSURES, _>(|e| self.exposure_marked(e)) as u16
    }

    // The marked lots.
    fn lot_word(&self) -> u64
        ensures { (l : ℕ) → l < 64 → bit result l ≡ (marked self.now).lots l }
    {
        word::<LOTS, _>(|l| self.lot_marked(l))
    }

    // The marked issuers at an exposure.
    fn issuer_word(&self, exposure: usize) -> u64
        requires { exposure < 16 }
        ensures { (t : ℕ) → t < 64 → bit result t ≡ (marked self.now).issuers exposure t }
    {
        word::<LOTS, _>(|lot| self.issuer_marked(exposure, lot))
    }

    // Those at each exposure.
    fn issuer_words(&self) -> [u64; EXPOSURES]
        ensures { (e : ℕ) → e < 16 → (t : ℕ) → t < 64 → bit (at result e) t ≡ (marked self.now).issuers e t }
    {
        // No `array::from_fn`, as for the flags above.
        let mut words = [0u64; EXPOSURES];
        for (e, word) in words.iter_mut().enumerate() {
            *word = self.issuer_word(e);
        }
        words
    }

    // The record of the marks.
    pub fn note(&self) -> Record
        ensures { SameMarks (noted result) (marked self.now) }
    {
        Record {
            exposures: self.exposure_word(),
            lots: self.lot_word(),
            issuers: self.issuer_words(),
        }
    }
}
