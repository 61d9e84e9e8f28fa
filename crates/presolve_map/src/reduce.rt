//! The rows that the box can violate, over the columns that are kept.
ghost use Rattle.std.specs.Prelude.{◌≡◌, ℕ, ◌^◌, ◌≤◌, ◌<◌, unsigned_abs, length, IfOk, OnOk};
ghost use Rattle.whole_rows.specs.WholeRows.{row_at, span, size_of_side};
ghost use Rattle.presolve_map.specs.Columns.{kept, open_flags};
ghost use Rattle.presolve_map.specs.Removed.{removed_bounds};
ghost use Rattle.presolve_map.specs.ReducedRows.{can_violate, falls_below, rises_above, moved_side, reduced_row, IsReduced};
ghost use Rattle.presolve_map.specs.Reducing.{IsReducedTo};
ghost use Rattle.presolve_map.specs.WorkViews.{with_work_row};

use crate::columns::{append_selected, positions, selected};
use crate::sides::WorkSides;
use crate::work_rows::WorkRows;
use sequence::NoMemory;
use std::alloc::Global;
use whole_rows::{Bounds, DenseRows, End};

/// The rows that are left.
pub(crate) fn work_rows(
    alloc: Global,
    rows: &DenseRows,
    flags: &[bool],
    removed: &[Bounds],
) -> Result<WorkRows, NoMemory>
    requires flags { flags.now ≡ open_flags rows.now.box }
    requires removed { removed.now ≡ removed_bounds rows.now.box }
    ensures { IfOk result (IsReduced rows.now) }
{
    let mut work = no_rows(alloc, rows, flags, removed)?;
    append_rows(alloc, &mut work, rows, flags, removed)?;
    Ok(work)
}

/// No rows yet, over the columns that are kept.
fn no_rows(
    alloc: Global,
    rows: &DenseRows,
    flags: &[bool],
    removed: &[Bounds],
) -> Result<WorkRows, NoMemory>
    requires flags { flags.now ≡ open_flags rows.now.box }
    requires removed { removed.now ≡ removed_bounds rows.now.box }
    ensures { IfOk result (IsReducedTo rows.now 0) }
{
    let _columns = rows.columns();
    let columns = positions(alloc, flags)?;
    let bounds = selected(alloc, flags, rows.bounds())?;
    let all_cost = rows.cost();
    let cost = selected(alloc, flags, all_cost)?;
    let constant = End::Least.sum(all_cost, removed);
    let work = WorkRows::new(alloc, bounds, columns, &cost, constant)?;
    Ok(work)
}

/// Puts the rows that the box can violate at the end.
fn append_rows(
    alloc: Global,
    work: &mut WorkRows,
    rows: &DenseRows,
    flags: &[bool],
    removed: &[Bounds],
) -> Result<(), NoMemory>
    requires flags { flags.now ≡ open_flags rows.now.box }
    requires removed { removed.now ≡ removed_bounds rows.now.box }
    requires none { IsReducedTo rows.now 0 work.old }
    ensures { OnOk result (IsReduced rows.now work.new) }
{
    let mut factors = Vec::new(alloc);
    for i in 0..rows.rows() {
        let needed = is_needed(rows, i);
        if needed {
            push_reduced(work, rows, i, flags, removed, &mut factors)?;
        }
    }
    Ok(())
}

/// Puts row `i` over the columns that are kept at the end. Its factors are gathered in `factors`.
fn push_reduced(
    work: &mut WorkRows,
    rows: &DenseRows,
    i: usize,
    flags: &[bool],
    removed: &[Bounds],
    factors: &mut Vec<i128>,
) -> Result<(), NoMemory>
    requires within { i < length rows.now.rows }
    requires flags { flags.now ≡ open_flags rows.now.box }
    requires removed { removed.now ≡ removed_bounds rows.now.box }
    requires narrowed { work.old.rows.box ≡ kept rows.now.box rows.now.box }
    requires room { length work.old.rows.rows < 256 }
    ensures { OnOk result (work.new ≡ with_work_row work.old (reduced_row rows.now.box (row_at rows.now i)) i) }
{
    factors.clear();
    append_selected(factors, flags, rows.row(i))?;
    let sides = moved_sides(rows, i, removed);
    work.push_row(factors.as_slice(), sides)?;
    Ok(())
}

/// Whether the box can violate row `i`.
fn is_needed(rows: &DenseRows, i: usize) -> bool
    requires { i < length rows.now.rows }
    ensures { result ≡ can_violate rows.now.box (row_at rows.now i) }
{
    can_violate(rows.row(i), rows.low(i), rows.high(i), rows.bounds())
}

/// Whether some sum of a row within the box passes one of its sides.
fn can_violate(factors: &[i128], low: Option<i128>, high: Option<i128>, bounds: &[Bounds]) -> bool
    requires same_length { length factors.now ≡ length bounds.now }
    requires light { span factors.now bounds.now ≤ 2 ^ 96 }
    ensures { result ≡ can_violate bounds.now (record { factors = factors.now; low = low; high = high }) }
{
    let least = End::Least.sum(factors, bounds);
    let greatest = End::Greatest.sum(factors, bounds);
    falls_below(low, least) || rises_above(high, greatest)
}

/// Whether a value is below the lower side.
fn falls_below(low: Option<i128>, value: i128) -> bool
    ensures { result ≡ falls_below low value }
{
    match low {
        None => false,
        Some(side) => value < side,
    }
}

/// Whether a value is above the upper side.
fn rises_above(high: Option<i128>, value: i128) -> bool
    ensures { result ≡ rises_above high value }
{
    match high {
        None => false,
        Some(side) => side < value,
    }
}

/// The sides of row `i` without what the removed columns contribute, with the row's number.
fn moved_sides(rows: &DenseRows, i: usize, removed: &[Bounds]) -> WorkSides
    requires within { i < length rows.now.rows }
    requires removed { removed.now ≡ removed_bounds rows.now.box }
    ensures low { result.low ≡ (reduced_row rows.now.box (row_at rows.now i)).low }
    ensures high { result.high ≡ (reduced_row rows.now.box (row_at rows.now i)).high }
    ensures small_low { size_of_side result.low ≤ 2 ^ 97 }
    ensures small_high { size_of_side result.high ≤ 2 ^ 97 }
    ensures number { result.number ≡ i }
{
    let _count = rows.rows();
    let _weight = rows.weight(i);
    let part = End::Least.sum(rows.row(i), removed);
    WorkSides {
        low: moved_side(rows.low(i), part),
        high: moved_side(rows.high(i), part),
        number: i as u32,
    }
}

/// A side without the part.
fn moved_side(side: Option<i128>, part: i128) -> Option<i128>
    requires side { size_of_side side ≤ 2 ^ 96 }
    requires part { unsigned_abs part ≤ 2 ^ 96 }
    ensures value { result ≡ moved_side part side }
    ensures small { size_of_side result ≤ 2 ^ 97 }
{
    match side {
        None => None,
        Some(side) => Some(side - part),
    }
}
