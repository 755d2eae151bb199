// What is asked of pledge tables, and what is written from them.

ghost use Rattle.std.specs.Prelude.{◌≡◌, ℕ, ◌+◌, ◌^◌, ◌<◌, ◌≤◌, length, if◌then◌else◌, ◌≢◌, nat_eq, nat_lt, slice_set, is_some, slice_index, slice_index_or, None};
ghost use Rattle.network.specs.Sums.{sum_over};
ghost use Rattle.calls.specs.State.{table};
ghost use Rattle.calls.specs.Call.{count};
ghost use Rattle.calls.specs.Instructions.{moves, move, changes, closings, written};
ghost use Rattle.calls.specs.Step.{zeroed};
ghost use Rattle.book.specs.Kept.{Low};

use crate::places::{EXPOSURES, LOTS, PAIRS, Place};
use calls::Instruction;

// The pledges of a lot.
fn row(pledges: &[u64; PAIRS], lot: Place<LOTS>) -> &[u64]
    ensures all { length result.now ≡ 16 }
    ensures each { (e : ℕ) → e < 16 → slice_index result.now e ≡ table pledges.now lot.at e }
{
    let first = lot.at * EXPOSURES;
    &pledges[first..first + EXPOSURES]
}

// Whether a lot has a pledge.
pub fn is_pledged(pledges: &[u64; PAIRS], lot: Place<LOTS>) -> bool
    ensures { result ≡ nat_lt 0 (sum_over 16 (λ e. table pledges.now lot.at e)) }
{
    row(pledges, lot).iter().any(|pledge| *pledge > 0)
}

// Makes every pledge to an exposure 0.
pub fn zero_column(pledges: &mut [u64; PAIRS], exposure: Place<EXPOSURES>)
    ensures { pledges.new ≡ zeroed pledges.old exposure.at 64 }
{
    // By lots: nothing is known of what was written through `chunks_exact_mut`, and `step_by` takes four times the instructions.
    for lot in 0..LOTS {
        pledges[lot * EXPOSURES + exposure.at] = 0;
    }
}

// How many places are filled.
pub fn filled<T: Copy>(places: &[Option<T>]) -> usize
    ensures count { result ≡ count (length places.now) (λ k. is_some (slice_index_or places.now k None)) }
    ensures bound { result ≤ length places.now }
{
    let mut count = 0;
    // Not `filter` and `count`, which take four times the instructions.
    for place in places {
        if place.is_some() {
            count += 1;
        }
    }
    count
}

// A pledge of the lot at a place to the exposure at a place that goes from `old` to `new`.
#[derive(Clone, Copy)]
struct Change {
    lot: usize,
    exposure: usize,
    old: u64,
    new: u64,
    ghost within: { (lot < 64) × (exposure < 16) },
    ghost low: { (old < 2 ^ 40) × (new < 2 ^ 40) },
}

impl Change {
    fn instruction(self) -> Instruction
        ensures { result ≡ moves self.lot self.exposure self.old self.new }
    {
        Instruction {
            lot: self.lot as u8,
            exposure: self.exposure as u8,
            amount: self.new as i64 - self.old as i64,
        }
    }

    // Writes its instruction behind the first `count` if the pledge differs, and returns their number
    // then. The list is the caller's, so the number stands beside it.
    fn write(self, list: &mut [Instruction], count: usize) -> usize
        requires room { (self.new ≢ self.old) → count < length list.old }
        ensures count { result ≡ count + length (move self.lot self.exposure self.old self.new) }
        ensures list { list.new ≡ (if nat_eq self.new self.old then list.old else slice_set list.old count (moves self.lot self.exposure self.old self.new)) }
    {
        if self.new == self.old {
            return count;
        }
        list[count] = self.instruction();
        count + 1
    }
}

// Writes one instruction for each place where the tables differ, and returns their number, which the list has room for: callers
// rest on that without its count.
pub fn write_changes(
    standing: &[u64; PAIRS],
    working: &[u64; PAIRS],
    list: &mut [Instruction],
) -> usize
    requires low { Low standing.now × Low working.now }
    requires room { length (changes standing.now working.now 1024) ≤ length list.old }
    ensures count { result ≡ length (changes standing.now working.now 1024) }
    ensures fits { result ≤ length list.old }
    ensures after { list.new ≡ written (changes standing.now working.now 1024) list.old }
{
    let mut count = 0;
    for (place, (old, new)) in standing.iter().zip(working).enumerate() {
        let change = Change {
            lot: place / EXPOSURES,
            exposure: place % EXPOSURES,
            old: *old,
            new: *new,
        };
        count = change.write(list, count);
    }
    count
}

// Writes one instruction for each pledge to an exposure, which goes to 0, and returns their number.
pub fn write_closings(
    standing: &[u64; PAIRS],
    exposure: Place<EXPOSURES>,
    list: &mut [Instruction],
) -> usize
    requires low { Low standing.now }
    requires room { length (closings standing.now exposure.at 64) ≤ length list.old }
    ensures count { result ≡ length (closings standing.now exposure.at 64) }
    ensures fits { result ≤ length list.old }
    ensures after { list.new ≡ written (closings standing.now exposure.at 64) list.old }
{
    let mut count = 0;
    for (lot, row) in standing.chunks_exact(EXPOSURES).enumerate() {
        let change = Change {
            lot,
            exposure: exposure.at,
            old: row[exposure.at],
            new: 0,
        };
        count = change.write(list, count);
    }
    count
}
