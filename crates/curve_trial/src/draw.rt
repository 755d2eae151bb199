// A page under construction: its points may be any.

use curve::curve::point::Point;
use std::alloc::{AllocError, Global};

#[derive(Drop)]
pub(crate) struct Draft {
    pub(crate) points: Vec<Point>,
}

// A point, and the number that its month or its haircut is set to.
#[derive(Clone, Copy)]
pub(crate) enum Change {
    Month(usize, u16),
    Haircut(usize, u16),
}

impl Draft {
    // `count` points, at months 0, 70, 140, .. with haircuts 250, 500, 750, ..
    pub(crate) fn even(heap: Global, count: u8) -> Result<Draft, AllocError> {
        let points = (0..count)
            .map(|j| Point {
                month: u16::from(j) * 70,
                haircut: (u16::from(j) + 1) * 250,
            })
            .collect(heap)?;
        Ok(Draft { points })
    }

    pub(crate) fn set(&mut self, change: Change) {
        match change {
            Change::Month(j, month) => {
                if let Some(point) = self.points.get_mut(j) {
                    point.month = month;
                }
            }
            Change::Haircut(j, haircut) => {
                if let Some(point) = self.points.get_mut(j) {
                    point.haircut = haircut;
                }
            }
        }
    }

    // Its bytes: the number of points, then the months, then the haircuts.
    pub(crate) fn page(&self, heap: Global) -> Result<Vec<u8>, AllocError> {
        let mut bytes = vec![in heap; (self.points.len() & 0xff) as u8]?;
        let months = self.points.iter().map(|point| point.month);
        let haircuts = self.points.iter().map(|point| point.haircut);
        for number in months.chain(haircuts) {
            bytes.extend_from_slice(&number.to_le_bytes())?;
        }
        Ok(bytes)
    }
}
