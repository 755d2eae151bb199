// Exclusions.

use crate::schedules::schedule;
use crate::trials::{Trials, refusal};
use binder::Binder;
use binder::exclusion::Exclusion;
use binder::pair::Pair;
use std::io;

const EVERY: &[u8] = b"!c=65535";

// Thirty-two issuers are listed, and no other after them.
pub fn list(rt: &HostRuntime) -> io::Result<()> {
    let mut trials = Trials::new();
    let mut exclusion = Exclusion::over(schedule(4_000, EVERY));
    for i in 0..32u8 {
        let issuer = i * 8 + 7;
        let fields = [0, 1, 0, u16::from(issuer)];
        trials.admits(&exclusion, 0, fields, true);
        trials.note(exclusion.exclude(issuer).is_ok());
        trials.admits(&exclusion, 0, fields, false);
    }
    trials.note(refusal(exclusion.exclude(0)) == Some(11));
    trials.note(exclusion.exclude(255).is_ok());
    trials.note(refusal(exclusion.exclude(254)) == Some(11));
    trials.note(exclusion.exclude(7).is_ok());
    for issuer in 0..258u16 {
        let want = issuer < 256 && issuer % 8 != 7;
        trials.admits(&exclusion, 0, [0, 1, 0, issuer], want);
    }
    trials.admits(&exclusion, 1, [0, 1, 0, 0], false);
    trials.share(&exclusion, 0, Some(4_000));
    trials.share(&exclusion, 1, None);
    trials.report(rt, "exclusions")
}

// An exclusion over a pair reaches both sides, and one on a side only that side.
pub fn over_pairs(rt: &HostRuntime) -> io::Result<()> {
    let mut trials = Trials::new();
    let mut side = Exclusion::over(schedule(2_000, b"c=2"));
    trials.note(side.exclude(9).is_ok());
    let mut pair = Pair::new(schedule(1_000, b"c=1"), side);
    trials.note(pair.set_switch(1).is_ok());
    let mut over = Exclusion::over(pair);
    trials.note(over.exclude(5).is_ok());
    for (number, class, issuer, want) in OVER {
        trials.admits(&over, number, [class, 1, 0, issuer], want);
    }
    trials.share(&over, 0, Some(1_000));
    trials.share(&over, 1, Some(2_000));
    trials.share(&over, 2, None);
    trials.report(rt, "exclusions and pairs")
}

const OVER: [(u64, u16, u16, bool); 10] = [
    (0, 1, 0, true),
    (0, 1, 5, false),
    (0, 1, 9, true),
    (0, 2, 0, false),
    (1, 2, 0, true),
    (1, 2, 5, false),
    (1, 2, 9, false),
    (1, 1, 0, false),
    (2, 1, 0, false),
    (2, 2, 0, false),
];
