//! The equalities of a node over its work columns.
ghost use Rattle.std.specs.Prelude.{◌≡◌, ◌+◌, ◌<◌, ◌≤◌, ◌++◌, pos, length, IfOk, OnOk, slice_index_or};
ghost use Rattle.std.specs.List.{All};
ghost use Rattle.farkas_lift.specs.NodeEqualities.{row_equality, work_slice, node_equalities};
ghost use Rattle.whole_rows.specs.WholeRows.{row_at};

use crate::side::common_side;
use farkas_rows::{Path, Slice};
use presolve_map::WorkRows;
use reformulate::{Equalities, Equality};
use sequence::NoMemory;
use spaces::Form;
use std::alloc::Global;

/// The equalities of a node over the work columns: the rows with equal sides in order, and then the slices that lead to it.
/// The form of a slice is 0 in each column that is not kept.
pub fn node_equalities(alloc: Global, rows: &WorkRows, path: &Path) -> Result<Equalities, NoMemory>
    ensures value { IfOk result (λ equalities. equalities ≡ node_equalities rows.now path.now) }
    ensures dense { IfOk result (λ equalities. All (λ equality. length equality.form ≡ length rows.now.rows.box) equalities) }
    ensures few { IfOk result (λ equalities. length equalities ≤ 256 + length path.now) }
{
    let mut equalities = Equalities::new(alloc);
    for i in 0..rows.rows() {
        push_row(alloc, &mut equalities, rows, i)?;
    }
    for slice in path.items() {
        equalities.push(over_work(alloc, rows, slice)?)?;
    }
    Ok(equalities)
}

/// Puts a row at the end, where its sides are equal.
fn push_row(
    alloc: Global,
    equalities: &mut Equalities,
    rows: &WorkRows,
    i: usize,
) -> Result<(), NoMemory>
    requires there { i < length rows.now.rows.rows }
    requires dense { All (λ equality. length equality.form ≡ length rows.now.rows.box) equalities.old }
    ensures value { OnOk result (equalities.new ≡ equalities.old ++ row_equality (row_at rows.now.rows i)) }
    ensures dense { OnOk result (All (λ equality. length equality.form ≡ length rows.now.rows.box) equalities.new) }
{
    if let Some(side) = common_side(rows.low(i), rows.high(i)) {
        let form = Form::of(rows.row(i).to_vec(alloc)?);
        equalities.push(Equality { form, side })?;
    }
    Ok(())
}

/// A slice as an equality over the work columns.
fn over_work(alloc: Global, rows: &WorkRows, slice: &Slice) -> Result<Equality, NoMemory>
    ensures value { IfOk result (λ equality. equality ≡ work_slice rows.now slice.now) }
    ensures dense { IfOk result (λ equality. length equality.form ≡ length rows.now.rows.box) }
{
    let mut factors = Vec::with_capacity(alloc, rows.columns())?;
    for j in 0..rows.columns() {
        factors.push(factor_at(slice.form.items(), rows.original_column(j)))?;
    }
    Ok(Equality {
        form: Form::of(factors),
        side: slice.beta,
    })
}

/// The factor of a column; 0 where the form has none.
fn factor_at(form: &[i128], column: u32) -> i128
    ensures { result ≡ slice_index_or form.now column (pos 0) }
{
    let column = column as usize;
    if column < form.len() { form[column] } else { 0 }
}
