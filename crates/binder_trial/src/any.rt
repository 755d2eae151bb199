// Binders of any kind, held against the same ones put together from their own types.

use crate::schedules::schedule;
use crate::trials::{Trials, lot};
use binder::Binder;
use binder::exclusion::Exclusion;
use binder::issuers::Issuers;
use binder::limit::ClassLimit;
use binder::pair::Pair;
use binder::rating::RatingTable;
use binder::schedule::RuleSchedule;
use binder::switch::Switch;
use named::AnyBinder;
use std::alloc::{AllocError, Global};
use std::io;

fn table() -> RatingTable {
    let mut table = RatingTable::blank();
    let limit = ClassLimit {
        worst: 10,
        longest: 60,
    };
    let _ = table.load(2_500, &[limit; 8]);
    table
}

fn rules() -> RuleSchedule {
    schedule(3_000, b"r<11&(m<121|i=7)")
}

// An exclusion of issuer 7 over a pair, at the switch, of a table and an exclusion of issuer 9 over a
// schedule.
fn typed(switch: u64) -> Exclusion<Pair<RatingTable, Exclusion<RuleSchedule>>> {
    let mut side = Exclusion::over(rules());
    let _ = side.exclude(9);
    let mut pair = Pair::new(table(), side);
    let _ = pair.set_switch(switch);
    let mut over = Exclusion::over(pair);
    let _ = over.exclude(7);
    over
}

fn only(issuer: u8) -> Issuers {
    let mut issuers = Issuers::none();
    let _ = issuers.add(issuer);
    issuers
}

fn named(heap: Global, switch: u64) -> Result<AnyBinder, AllocError> {
    let side = AnyBinder::Schedule(rules()).excluding(heap, only(9))?;
    let mut at = Switch::new();
    let _ = at.set(switch);
    let pair = AnyBinder::Table(table()).joined_to(heap, at, side)?;
    pair.excluding(heap, only(7))
}

const SWITCHES: [u64; 6] = [0, 1, 2, 15, 16, 17];

const CLASSES: [u16; 2] = [7, 8];

const RATINGS: [u16; 3] = [0, 10, 11];

const MONTHS: [u16; 3] = [60, 120, 121];

const ISSUERS: [u16; 4] = [0, 7, 9, 256];

fn lots<A: Binder, B: Binder>(trials: &mut Trials, a: &A, b: &B, number: u64, class: u16) {
    for rating in RATINGS {
        for months in MONTHS {
            for issuer in ISSUERS {
                let asked = lot([class, rating, months, issuer]);
                trials.note(a.admits(number, asked) == b.admits(number, asked));
            }
        }
    }
}

fn same<A: Binder, B: Binder>(trials: &mut Trials, a: &A, b: &B) {
    for number in 0..19u64 {
        trials.note(a.held(number) == b.held(number));
        for issuer in ISSUERS {
            trials.note(a.share(number, issuer) == b.share(number, issuer));
        }
        for class in CLASSES {
            lots(trials, a, b, number, class);
        }
    }
}

pub fn agrees(rt: &HostRuntime) -> io::Result<()> {
    let mut trials = Trials::new();
    for switch in SWITCHES {
        let any = named(rt.alloc(), switch)?;
        same(&mut trials, &any, &typed(switch));
    }
    let any = named(rt.alloc(), 1)?;
    trials.share(&any, 0, Some(2_500));
    trials.share(&any, 1, Some(3_000));
    trials.share(&any, 2, None);
    trials.admits(&any, 0, [0, 10, 60, 0], true);
    trials.admits(&any, 0, [0, 10, 60, 7], false);
    trials.admits(&any, 0, [0, 10, 60, 9], true);
    trials.admits(&any, 1, [0, 10, 120, 3], true);
    trials.admits(&any, 1, [0, 10, 121, 3], false);
    trials.admits(&any, 1, [0, 10, 120, 9], false);
    trials.report(rt, "binders of any kind")
}
