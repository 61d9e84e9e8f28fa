//! The first dictionary of a node.
ghost use Rattle.std.specs.Prelude.{◌≡◌, ◌+◌, ◌<◌, ◌≤◌, length, vec_len, IfOk};

use crate::number::{narrow, with_product};
use crate::range::{Outside, Range, Variable};
use crate::stop::RangeStop;
use spaces::{Grid, Original};
use std::alloc::Global;
use whole_rows::{Bounds, DenseRows};

/// Each column at its lower bound.
pub(crate) fn outside_of(alloc: Global, bounds: &[Bounds]) -> Result<Vec<Outside>, RangeStop>
    requires { length bounds.now ≤ 256 }
    ensures { IfOk result (λ outside. vec_len outside ≡ length bounds.now) }
{
    let mut outside = Vec::with_capacity(alloc, bounds.len())?;
    for j in 0..bounds.len() {
        let Bounds { low, high } = bounds[j];
        let range = Range::new(Variable::Column(j as u32), Some(low), Some(high))?;
        outside.push(Outside {
            range,
            at: narrow(low)?,
            is_high: false,
        })?;
    }
    Ok(outside)
}

/// Each row with its sides, and the cost, which is below the cut's value.
pub(crate) fn basic_of(
    alloc: Global,
    rows: &DenseRows,
    cut: Option<i128>,
) -> Result<Vec<Range>, RangeStop>
    ensures { IfOk result (λ basic. vec_len basic ≡ length rows.now.rows + 1) }
{
    let mut basic = Vec::with_capacity(alloc, rows.rows() + 1)?;
    for i in 0..rows.rows() {
        basic.push(Range::new(Variable::Row(i as u32), rows.low(i), rows.high(i))?)?;
    }
    basic.push(cost_range(cut)?)?;
    Ok(basic)
}

/// The range of the cost.
pub(crate) fn cost_range(cut: Option<i128>) -> Result<Range, RangeStop> {
    let high = match cut {
        None => None,
        Some(value) => Some(value.checked_sub(1).ok_or(RangeStop::Wide)?),
    };
    Range::new(Variable::Cost, None, high)
}

/// Writes the rows and the cost into the first rows of a table.
pub(crate) fn write_forms(
    table: &mut Grid<Original, i64>,
    rows: &DenseRows,
    outside: &[Outside],
) -> Result<(), RangeStop>
    requires height { length rows.now.rows < table.old.rows }
    requires width { table.old.width ≡ length outside.now + 1 }
    requires columns { length outside.now ≡ length rows.now.box }
    ensures height { table.new.rows ≡ table.old.rows }
    ensures width { table.new.width ≡ table.old.width }
{
    for i in 0..rows.rows() {
        write_form(table.row_mut(i), rows.row(i), outside)?;
    }
    write_form(table.row_mut(rows.rows()), rows.cost(), outside)
}

/// Writes a form and its value.
fn write_form(row: &mut [i64], form: &[i128], outside: &[Outside]) -> Result<(), RangeStop>
    requires row { length row.old ≡ length outside.now + 1 }
    requires form { length form.now ≡ length outside.now }
{
    let last = outside.len();
    for j in 0..last {
        row[j] = narrow(form[j])?;
        row[last] = narrow(with_product(row[last], row[j], outside[j].at))?;
    }
    Ok(())
}

/// Copies the first rows of a table into another of the same width.
pub(crate) fn copy_rows(to: &mut Grid<Original, i64>, from: &Grid<Original, i64>, count: usize)
    requires to { count ≤ to.old.rows }
    requires from { count ≤ from.now.rows }
    requires width { to.old.width ≡ from.now.width }
    ensures height { to.new.rows ≡ to.old.rows }
    ensures width { to.new.width ≡ to.old.width }
{
    for i in 0..count {
        to.row_mut(i).copy_from_slice(from.row(i));
    }
}
