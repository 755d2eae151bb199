// Rating tables.

use crate::trials::Trials;
use binder::Binder;
use binder::limit::ClassLimit;
use binder::rating::RatingTable;
use std::io;

const OPEN: ClassLimit = ClassLimit {
    worst: 22,
    longest: 1200,
};

const LIMITS: [ClassLimit; 8] = [
    ClassLimit {
        worst: 0,
        longest: 1200,
    },
    ClassLimit {
        worst: 10,
        longest: 60,
    },
    ClassLimit {
        worst: 1,
        longest: 0,
    },
    ClassLimit {
        worst: 22,
        longest: 1199,
    },
    OPEN,
    OPEN,
    OPEN,
    ClassLimit {
        worst: 21,
        longest: 1200,
    },
];

// The number of a refusal and its place.
fn refusal(table: &mut RatingTable, share: u64, limits: &[ClassLimit; 8]) -> Option<(u8, usize)> {
    let fault = table.load(share, limits).err()?;
    Some((fault.cause.number(), fault.place))
}

// A table with the widest limits admits exactly the fields that a lot may have.
const LOTS: [([u16; 4], bool); 14] = [
    ([0, 1, 0, 0], true),
    ([7, 1, 0, 0], true),
    ([8, 1, 0, 0], false),
    ([65535, 1, 0, 0], false),
    ([0, 0, 0, 0], false),
    ([0, 22, 0, 0], true),
    ([0, 23, 0, 0], false),
    ([0, 1, 1200, 0], true),
    ([0, 1, 1201, 0], false),
    ([0, 1, 0, 255], true),
    ([0, 1, 0, 256], false),
    ([0, 1, 0, 65535], false),
    ([7, 22, 1200, 255], true),
    ([8, 23, 1201, 256], false),
];

pub fn lots(rt: &HostRuntime) -> io::Result<()> {
    let mut trials = Trials::new();
    let mut table = RatingTable::blank();
    for (fields, _) in LOTS {
        trials.admits(&table, 0, fields, false);
    }
    trials.share(&table, 0, Some(0));
    trials.note(table.load(10_000, &[OPEN; 8]).is_ok());
    for (fields, want) in LOTS {
        trials.admits(&table, 0, fields, want);
        trials.admits(&table, 1, fields, false);
    }
    trials.share(&table, 0, Some(10_000));
    trials.share(&table, 1, None);
    trials.share(&table, 16, None);
    trials.share(&table, u64::MAX, None);
    trials.report(rt, "lots of a table")
}

const LIMITED: [([u16; 4], bool); 16] = [
    ([0, 1, 0, 0], false),
    ([0, 22, 1200, 9], false),
    ([1, 10, 60, 0], true),
    ([1, 11, 60, 0], false),
    ([1, 10, 61, 0], false),
    ([1, 1, 0, 255], true),
    ([2, 1, 0, 0], true),
    ([2, 2, 0, 0], false),
    ([2, 1, 1, 0], false),
    ([3, 22, 1199, 0], true),
    ([3, 22, 1200, 0], false),
    ([4, 22, 1200, 0], true),
    ([7, 21, 1200, 0], true),
    ([7, 22, 1200, 0], false),
    ([7, 0, 0, 0], false),
    ([8, 1, 0, 0], false),
];

pub fn limits(rt: &HostRuntime) -> io::Result<()> {
    let mut trials = Trials::new();
    let mut table = RatingTable::blank();
    trials.note(table.load(2_500, &LIMITS).is_ok());
    for (fields, want) in LIMITED {
        trials.admits(&table, 0, fields, want);
    }
    trials.share(&table, 0, Some(2_500));
    trials.report(rt, "limits of a table")
}

// A share, the limit of class 7, the number of the refusal, and the share afterwards.
const LOADS: [(u64, u64, u64, Option<u8>, u16); 14] = [
    (0, 0, 0, None, 0),
    (10_000, 22, 1_200, None, 10_000),
    (10_001, 22, 1_200, Some(10), 2_500),
    (10_000, 23, 1_200, Some(10), 2_500),
    (10_000, 22, 1_201, Some(10), 2_500),
    (10_001, 23, 1_201, Some(10), 2_500),
    (65_536, 0, 0, Some(10), 2_500),
    (0, 256, 0, Some(10), 2_500),
    (0, 0, 65_536, Some(10), 2_500),
    (u64::MAX, 0, 0, Some(10), 2_500),
    (0, u64::MAX, 0, Some(10), 2_500),
    (0, 0, u64::MAX, Some(10), 2_500),
    (9_999, 21, 1_199, None, 9_999),
    (1, 1, 1, None, 1),
];

// What is loaded replaces the table, and what is refused leaves it as it was.
pub fn loads(rt: &HostRuntime) -> io::Result<()> {
    let mut trials = Trials::new();
    for (share, worst, longest, cause, after) in LOADS {
        let mut table = RatingTable::blank();
        trials.note(table.load(2_500, &LIMITS).is_ok());
        let mut limits = [OPEN; 8];
        limits[7] = ClassLimit { worst, longest };
        let want = cause.map(|number| (number, 0));
        trials.note(refusal(&mut table, share, &limits) == want);
        let loaded = cause.is_none();
        trials.share(&table, 0, Some(after));
        trials.admits(&table, 0, [0, 22, 1200, 0], loaded);
        trials.admits(&table, 0, [7, 22, 1200, 0], loaded && worst == 22);
        trials.admits(&table, 0, [7, 21, 1199, 0], !loaded || worst > 20);
    }
    trials.report(rt, "loads of a table")
}
