//! Whole numbers between two ends, those next to a place first.
use crate::numbers::quotient::floor;

/// The whole numbers from `lo` to `last` that have not been given yet, on both sides of a place.
#[derive(Debug, Drop)]
pub(crate) struct Nearest {
    lo: i128,
    last: i128,
    below: i128,
    above: i128,
    /// Whether the next one is to be below the place.
    falls: bool,
}

impl Nearest {
    /// Those next to a numerator over a denominator above 0, where all numbers on the way fit.
    pub(crate) fn to(numerator: i128, denominator: i128, lo: i128, last: i128) -> Option<Nearest> {
        let below = floor(numerator, denominator)?;
        let above = below.checked_add(1)?;
        let rest = numerator.checked_sub(below.checked_mul(denominator)?)?;
        Some(Nearest {
            lo,
            last,
            below,
            above,
            falls: rest.checked_mul(2)? < denominator,
        })
    }

    /// The next one, in turn from below the place and from above it, as long as there are some.
    pub(crate) fn next(&mut self) -> Option<i128> {
        let has_below = self.below >= self.lo;
        let has_above = self.above <= self.last;
        if !has_below && !has_above {
            return None;
        }
        let falls = has_below && (self.falls || !has_above);
        self.falls = !falls;
        if falls {
            let value = self.below;
            self.below = value.checked_sub(1)?;
            Some(value)
        } else {
            let value = self.above;
            self.above = value.checked_add(1)?;
            Some(value)
        }
    }
}
