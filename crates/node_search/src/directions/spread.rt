//! How the values of forms lie at the points of a node that were seen, rounded: what they tell of widths before a program does.
use crate::directions::seen::{Seen, value_at};
use crate::halt::Halt;
use crate::numbers::quotient::floor;
use frac128::Frac;
use range_dict::Vertex;
use std::alloc::Global;

/// How many parts of 1 the values are rounded down to.
pub(crate) const PARTS: i128 = 1 << 12;

/// The value of a form at a point in parts, rounded down; none where it leaves its range.
pub(crate) fn parts_at(form: &[i128], vertex: &Vertex) -> Option<i128> {
    floor(
        value_at(form, vertex)?.checked_mul(PARTS)?,
        vertex.denominator,
    )
}

/// The values of a form at the points, in parts, rounded down; none where one of them leaves its range.
pub(crate) fn values_of(
    alloc: Global,
    seen: &Seen,
    form: &[i128],
) -> Result<Option<Vec<i128>>, Halt> {
    let mut values = Vec::with_capacity(alloc, seen.points().len())?;
    for point in seen.points() {
        match parts_at(form, point) {
            Some(value) => values.push(value)?,
            None => return Ok(None),
        }
    }
    Ok(Some(values))
}

/// The least width, in parts, that a form has which has these values, rounded down, at points.
pub(crate) fn least_width(values: &[i128]) -> Option<i128> {
    let mut low = i128::MAX;
    let mut high = i128::MIN;
    for value in values {
        low = low.min(*value);
        high = high.max(*value);
    }
    high.checked_sub(low)?.checked_sub(1)
}

/// The width in parts, rounded up; as much as there can be where that leaves its range.
pub(crate) fn parts_of(width: &Frac) -> i128 {
    let parts = width.num().checked_mul(PARTS);
    match parts.and_then(|parts| floor(parts, width.den())) {
        Some(whole) => whole.saturating_add(1),
        None => i128::MAX,
    }
}

/// The sum of two lists of values, or their difference.
pub(crate) fn joined(
    alloc: Global,
    first: &[i128],
    second: &[i128],
    is_sum: bool,
) -> Result<Option<Vec<i128>>, Halt> {
    let mut all = Vec::with_capacity(alloc, first.len())?;
    for (a, b) in first.iter().zip(second) {
        let value = if is_sum {
            a.checked_add(*b)
        } else {
            a.checked_sub(*b)
        };
        match value {
            Some(value) => all.push(value)?,
            None => return Ok(None),
        }
    }
    Ok(Some(all))
}
