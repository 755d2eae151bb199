// Haircuts by stepping from month to month: a second method, which divides nothing.

use curve::curve::point::Point;
use std::alloc::{AllocError, Global};

// The months after a point up to the next. With each month the line between the two rises by the whole
// rise, in parts of one over the width, and the haircut steps up by one until it lies on the line or above it.
fn climb(out: &mut Vec<u64>, from: Point, to: Point) -> Result<(), AllocError> {
    let width = u64::from(to.month.saturating_sub(from.month));
    let rise = u64::from(to.haircut.saturating_sub(from.haircut));
    let mut haircut = u64::from(from.haircut);
    let mut line: u64 = 0;
    let mut stepped: u64 = 0;
    for _ in 0..width {
        line = line.saturating_add(rise);
        // Bounded by the rise, so that it ends.
        for _ in 0..rise {
            if stepped >= line {
                break;
            }
            stepped = stepped.saturating_add(width);
            haircut = haircut.saturating_add(1);
        }
        out.push(haircut)?;
    }
    Ok(())
}

// The haircuts of the months 0, 1, 2, .. up to the last point.
pub(crate) fn haircuts(heap: Global, points: &[Point]) -> Result<Vec<u64>, AllocError> {
    let mut out = Vec::new(heap);
    let Some(first) = points.first() else {
        return Ok(out);
    };
    out.push(u64::from(first.haircut))?;
    for pair in points.windows(2) {
        if let [from, to] = pair {
            climb(&mut out, *from, *to)?;
        }
    }
    Ok(out)
}
