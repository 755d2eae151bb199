// Rule schedules.

use crate::trials::Trials;
use binder::Binder;
use binder::schedule::RuleSchedule;
use std::io;

// The number of a refusal, its place and its label.
fn refusal(
    schedule: &mut RuleSchedule,
    label: u8,
    share: u64,
    text: &[u8],
) -> Option<(u8, usize, u8)> {
    let fault = schedule.load(label, share, text).err()?;
    Some((fault.cause.number(), fault.place, fault.label))
}

// A text, a lot's class, rating, months and issuer, and whether the lot is admitted: the rules say yes
// to more than a lot's fields may be.
const LOTS: [(&[u8], [u16; 4], bool); 18] = [
    (b"r<11&(m<121|i=7)", [0, 10, 120, 3], true),
    (b"r<11&(m<121|i=7)", [0, 10, 121, 3], false),
    (b"r<11&(m<121|i=7)", [0, 10, 121, 7], true),
    (b"r<11&(m<121|i=7)", [0, 11, 120, 7], false),
    (b"r<11&(m<121|i=7)", [0, 0, 120, 7], false),
    (b"!c=65535", [7, 1, 0, 0], true),
    (b"!c=65535", [8, 1, 0, 0], false),
    (b"!c=65535", [0, 0, 0, 0], false),
    (b"!c=65535", [0, 22, 0, 0], true),
    (b"!c=65535", [0, 23, 0, 0], false),
    (b"!c=65535", [0, 1, 1200, 0], true),
    (b"!c=65535", [0, 1, 1201, 0], false),
    (b"!c=65535", [0, 1, 0, 255], true),
    (b"!c=65535", [0, 1, 0, 256], false),
    (b"c>7", [8, 1, 0, 0], false),
    (b"r=0", [0, 0, 0, 0], false),
    (b"m>1200", [0, 1, 1201, 0], false),
    (b"i=256", [0, 1, 0, 256], false),
];

pub fn lots(rt: &HostRuntime) -> io::Result<()> {
    let mut trials = Trials::new();
    for (text, fields, want) in LOTS {
        let mut schedule = RuleSchedule::blank();
        trials.admits(&schedule, 0, fields, false);
        trials.share(&schedule, 0, Some(0));
        trials.note(schedule.load(0, 3_000, text).is_ok());
        trials.admits(&schedule, 0, fields, want);
        trials.admits(&schedule, 1, fields, false);
        trials.share(&schedule, 0, Some(3_000));
        trials.share(&schedule, 1, None);
    }
    trials.report(rt, "lots of a schedule")
}

// A label, a share, a text, the refusal's number and place, and the share afterwards: a fault of the
// text comes before the share.
const LOADS: [(u8, u64, &[u8], Option<(u8, usize)>, u16); 12] = [
    (0, 0, b"c=1", None, 0),
    (255, 10_000, b"c=1", None, 10_000),
    (1, 10_001, b"c=1", Some((10, 0)), 2_500),
    (2, u64::MAX, b"c=1", Some((10, 0)), 2_500),
    (3, 65_536, b"c=1", Some((10, 0)), 2_500),
    (4, 10_000, b"", Some((6, 0)), 2_500),
    (200, 10_000, b"r<01", Some((6, 3)), 2_500),
    (255, 10_001, b"r<01", Some((6, 3)), 2_500),
    (0, 10_001, b"m<65536", Some((7, 2)), 2_500),
    (
        7,
        0,
        b"((((((((((((((((((c=1))))))))))))))))))",
        Some((8, 16)),
        2_500,
    ),
    (8, 0, b"c=1&", Some((6, 4)), 2_500),
    (9, 10_001, b"c=1&", Some((6, 4)), 2_500),
];

// What is loaded replaces the schedule, and what is refused leaves it as it was.
pub fn loads(rt: &HostRuntime) -> io::Result<()> {
    let mut trials = Trials::new();
    for (label, share, text, fault, after) in LOADS {
        let mut schedule = RuleSchedule::blank();
        trials.note(schedule.load(77, 2_500, b"c=2").is_ok());
        let want = fault.map(|(cause, place)| (cause, place, label));
        trials.note(refusal(&mut schedule, label, share, text) == want);
        let loaded = fault.is_none();
        trials.share(&schedule, 0, Some(after));
        trials.admits(&schedule, 0, [1, 1, 0, 0], loaded);
        trials.admits(&schedule, 0, [2, 1, 0, 0], !loaded);
    }
    trials.report(rt, "loads of a schedule")
}

// A schedule of a text and a share that are in order.
pub fn schedule(share: u64, text: &[u8]) -> RuleSchedule {
    let mut schedule = RuleSchedule::blank();
    let _ = schedule.load(0, share, text);
    schedule
}
