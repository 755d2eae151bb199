// The arrays of a drawn network, made once for an allocation.

ghost use Rattle.std.specs.Prelude.{◌≡◌, ℕ, ◌+◌, ◌*◌, ◌<◌};
ghost use Rattle.table.specs.Table.{owed};
ghost use Rattle.table.specs.Drawn.{slot, arc, cap_of};
ghost use Rattle.table.specs.Drawn.Arc.{supply, offer, bound, demand};
ghost use Rattle.cover.specs.View.{at, terms_at};
ghost use Rattle.cover.specs.Seen.{seen};
ghost use Rattle.cover.specs.Drawing.{Slotted, Capacities, Rows, First};

use crate::drawn::Drawn;
use crate::pair::{ARCS, BOUNDS, DEMANDS, LOTS, OFFERS, Pair};
use crate::total::total;
use crate::{Problem, Terms};

impl Problem {
    // The slot of the lot `l`, from the first held lot place of each issuer before it; `l` is noted where it is the first.
    fn slot_at(&self, first: &mut [Option<usize>; 256], l: usize) -> usize
        requires { (First (seen self.now) first.old l) × (l < 64) }
        ensures slot { result ≡ slot (seen self.now) l }
        ensures first { First (seen self.now) first.new (l + 1) }
    {
        match self.lots[l] {
            Some(lot) => {
                let issuer = lot.issuer as usize;
                let slot = first[issuer].unwrap_or(l);
                first[issuer] = Some(slot);
                slot
            }
            None => l,
        }
    }

    // The smallest held lot place of each lot's issuer; a place without a lot stands for itself.
    fn slots(&self) -> [usize; LOTS]
        ensures { Slotted (seen self.now) result }
    {
        let mut first = [None; 256];
        let mut slots = [0usize; LOTS];
        // No `array::from_fn`: its closure would change what is noted of the lots so far.
        for (l, slot) in slots.iter_mut().enumerate() {
            *slot = self.slot_at(&mut first, l);
        }
        slots
    }

    // The terms of a pair.
    fn terms(&self, pair: Pair) -> Terms
        ensures { result ≡ terms_at self.now.admitted self.now.limits (pair.lot * 16 + pair.exposure) }
    {
        let k = pair.number();
        Terms {
            admitted: self.admitted[k],
            limit: self.limits[k],
        }
    }

    fn supply_bears(&self, l: usize) -> u64
        requires { l < 64 }
        ensures { result ≡ cap_of (seen self.now) (supply l) }
    {
        self.lots[l].map_or(0, |lot| lot.worth)
    }

    fn offer_bears(&self, pair: Pair) -> u64
        ensures { result ≡ cap_of (seen self.now) (offer pair.lot pair.exposure) }
    {
        let admitted = self.terms(pair).admitted;
        match (self.lots[pair.lot], self.exposures[pair.exposure]) {
            (Some(lot), Some(_)) if admitted => lot.worth,
            _ => 0,
        }
    }

    fn bound_bears(&self, slots: &[usize; LOTS], pair: Pair) -> u64
        requires { Slotted (seen self.now) slots.now }
        ensures { result ≡ cap_of (seen self.now) (bound pair.lot pair.exposure) }
    {
        let leads = self.lots[pair.lot].is_some() && slots[pair.lot] == pair.lot;
        if leads && self.exposures[pair.exposure].is_some() {
            self.terms(pair).limit
        } else {
            0
        }
    }

    fn demand_bears(&self, e: usize) -> u64
        requires { e < 16 }
        ensures { result ≡ cap_of (seen self.now) (demand e) }
    {
        self.exposures[e].unwrap_or(0)
    }

    // The capacity of the arc `k`.
    fn bears_at(&self, slots: &[usize; LOTS], k: usize) -> u64
        requires { (Slotted (seen self.now) slots.now) × (k < 2128) }
        ensures { result ≡ cap_of (seen self.now) (arc k) }
    {
        if k < OFFERS {
            self.supply_bears(k)
        } else if k < BOUNDS {
            self.offer_bears(Pair::of(k - OFFERS))
        } else if k < DEMANDS {
            self.bound_bears(slots, Pair::of(k - BOUNDS))
        } else {
            self.demand_bears(k - DEMANDS)
        }
    }

    // The capacity of each arc.
    fn capacities(&self, slots: &[usize; LOTS]) -> [u64; ARCS]
        requires { Slotted (seen self.now) slots.now }
        ensures { Capacities (seen self.now) result }
    {
        // No `array::from_fn`: it was tried, and at 2,128 places no proof found that its closure keeps what it borrows.
        let mut capacities = [0u64; ARCS];
        for (k, capacity) in capacities.iter_mut().enumerate() {
            *capacity = self.bears_at(slots, k);
        }
        capacities
    }

    // The network of the problem.
    pub fn draw(&self) -> Drawn<'_>
        ensures { result.problem.now ≡ self.now }
    {
        let slots = self.slots();
        let capacity = self.capacities(&slots);
        let mut members = [0u8; 4096];
        let mut counts = [0usize; LOTS];
        rows(&slots, &mut members, &mut counts);
        Drawn {
            problem: self,
            capacity,
            slots,
            members,
            counts,
        }
    }

    // What all open exposures are owed.
    pub fn owed(&self) -> u64
        ensures { result ≡ owed (seen self.now) }
    {
        total(&self.exposures.map(|amount| amount.unwrap_or(0)))
    }
}

// The lots of each slot: `counts[t]` of them have the slot `t`, and stand in the row of 64 places of `t`.
// Rows with their counts beside them, since memory is fixed and a slot may have 64 lots or none.
fn rows(slots: &[usize; LOTS], members: &mut [u8; 4096], counts: &mut [usize; LOTS])
    requires { (((l : ℕ) → l < 64 → at slots.now l < 64)) × (((t : ℕ) → t < 64 → at counts.old t ≡ 0)) }
    ensures { Rows slots.now members.new counts.new 64 }
{
    for (l, t) in slots.iter().enumerate() {
        let n = counts[*t];
        members[*t * LOTS + n] = l as u8;
        counts[*t] = n + 1;
    }
}
