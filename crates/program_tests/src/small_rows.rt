//! Small rows that several tests take.
use std::alloc::Global;
use std::test::Fail;
use whole_rows::{Bounds, DenseRows};

/// At most 12 = 3x + 2y and at most 6 = x + 2y, the costs -5 and -4, x and y from 0 to 10.
pub(crate) fn two_constraints(alloc: Global) -> Result<DenseRows, Fail> {
    let bounds = [Bounds { low: 0, high: 10 }; 2];
    let mut rows = DenseRows::new(alloc, bounds.to_vec(alloc)?)?;
    rows.push_row(&[3, 2], None, Some(12))?;
    rows.push_row(&[1, 2], None, Some(6))?;
    rows.set_cost(&[-5, -4])?;
    Ok(rows)
}
