// Pairs.

use crate::schedules::schedule;
use crate::trials::{Trials, refusal};
use binder::Binder;
use binder::pair::Pair;
use std::io;

// Four schedules, of the classes 1 to 4, are known by what they admit, and by shares of as many
// thousands.
const SHARES: [u16; 4] = [1_000, 2_000, 3_000, 4_000];

// Every number from 0 to 18 has the schedule that it should have, where each of the four schedules has
// at most one number.
fn numbers<B: Binder>(trials: &mut Trials, binder: &B, places: [Option<u64>; 4]) {
    for number in 0..19u64 {
        let which = places.iter().position(|place| *place == Some(number));
        let share = which.and_then(|i| SHARES.get(i).copied());
        trials.share(binder, number, share);
        for class in 1..6u16 {
            let want = which.is_some_and(|i| i + 1 == usize::from(class));
            trials.admits(binder, number, [class, 1, 0, 0], want);
        }
    }
}

// A switch, the number of its refusal, and the numbers of the two schedules afterwards.
const SWITCHES: [(u64, Option<u8>, Option<u64>, Option<u64>); 9] = [
    (16, None, Some(0), None),
    (0, None, None, Some(0)),
    (17, Some(12), None, Some(0)),
    (1, None, Some(0), Some(1)),
    (u64::MAX, Some(12), Some(0), Some(1)),
    (2, None, Some(0), Some(2)),
    (15, None, Some(0), Some(15)),
    (16, None, Some(0), None),
    (256, Some(12), Some(0), None),
];

// A pair starts at 16, and goes from switch to switch.
pub fn switches(rt: &HostRuntime) -> io::Result<()> {
    let mut trials = Trials::new();
    let mut pair = Pair::new(schedule(1_000, b"c=1"), schedule(2_000, b"c=2"));
    numbers(&mut trials, &pair, [Some(0), None, None, None]);
    for (switch, cause, one, two) in SWITCHES {
        trials.note(refusal(pair.set_switch(switch)) == cause);
        numbers(&mut trials, &pair, [one, two, None, None]);
    }
    trials.report(rt, "switches")
}

// The switches of two pairs and of their pair, and the numbers of the four schedules.
const NESTED: [(u64, u64, u64, [Option<u64>; 4]); 7] = [
    (1, 1, 2, [Some(0), Some(1), Some(2), Some(3)]),
    (1, 1, 1, [Some(0), None, Some(1), Some(2)]),
    (1, 1, 3, [Some(0), Some(1), Some(3), Some(4)]),
    (0, 16, 1, [None, Some(0), Some(1), None]),
    (16, 0, 0, [None, None, None, Some(0)]),
    (7, 7, 8, [Some(0), Some(7), Some(8), Some(15)]),
    (8, 8, 8, [Some(0), None, Some(8), None]),
];

pub fn nested(rt: &HostRuntime) -> io::Result<()> {
    let mut trials = Trials::new();
    for (left, right, above, places) in NESTED {
        let mut first = Pair::new(schedule(1_000, b"c=1"), schedule(2_000, b"c=2"));
        let mut second = Pair::new(schedule(3_000, b"c=3"), schedule(4_000, b"c=4"));
        trials.note(first.set_switch(left).is_ok());
        trials.note(second.set_switch(right).is_ok());
        let mut pair = Pair::new(first, second);
        trials.note(pair.set_switch(above).is_ok());
        numbers(&mut trials, &pair, places);
    }
    trials.report(rt, "pairs of pairs")
}
