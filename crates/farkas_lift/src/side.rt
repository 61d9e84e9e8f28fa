//! The inequalities of a node that are none of its equalities.
ghost use Rattle.std.specs.Prelude.{◌≡◌, ◌<◌, ◌≤◌, ◌^◌, ◌++◌, pos, length, IfOk, OnOk, SomeIff, set, slice_index_or, nat_abs};
ghost use Rattle.std.specs.List.{All};
ghost use Rattle.exact_math.specs.Ring.{integers};
ghost use Rattle.exact_vectors.specs.Vectors.{negate, zeros};
ghost use Rattle.whole_rows.specs.WholeRows.{bounds_at, span};
ghost use Rattle.farkas_lift.specs.NodeEqualities.{common_side};
ghost use Rattle.farkas_lift.specs.NodeSides.{side_form};
ghost use Rattle.farkas_lift.specs.NodeSides.{side_with, row_sides, column_sides, cut_side, node_sides, inequality_of};
ghost use Rattle.farkas_lift.specs.NodeSystem.{LimitFits};
ghost use Rattle.farkas_lift.specs.Joined.{joined};
ghost use Rattle.farkas_lift.specs.NodeSides.{IsThere};

use presolve_map::WorkRows;
use sequence::NoMemory;
use std::alloc::Global;
use whole_rows::Bounds;

/// An inequality over the work columns.
#[derive(Clone, Copy, Debug, Drop)]
pub enum NodeSide {
    /// The upper side of a row with different sides.
    RowAtMost(usize),
    /// The lower side of such a row.
    RowAtLeast(usize),
    /// The upper bound of a column.
    ColumnAtMost(usize),
    /// The lower bound of a column.
    ColumnAtLeast(usize),
    /// The cut: the cost is at most one less than a value.
    Cut,
}

/// The inequalities of a node that are none of its equalities, in order.
pub(crate) fn node_sides(
    alloc: Global,
    rows: &WorkRows,
    has_cut: bool,
) -> Result<Vec<NodeSide>, NoMemory>
    ensures value { IfOk result (λ sides. sides.items ≡ node_sides rows.now has_cut) }
    ensures there { IfOk result (λ sides. All (IsThere rows.now) sides.items) }
    ensures few { IfOk result (λ sides. length sides.items ≤ 1025) }
{
    let columns = rows.columns();
    let mut sides = Vec::with_capacity(alloc, 2 * (rows.rows() + columns) + 1)?;
    append_rows(&mut sides, rows)?;
    append_columns(&mut sides, columns)?;
    append_cut(&mut sides, has_cut)?;
    Ok(sides)
}

/// Puts the sides of the rows at the end.
fn append_rows(sides: &mut Vec<NodeSide>, rows: &WorkRows) -> Result<(), NoMemory>
    ensures { OnOk result (sides.new.items ≡ sides.old.items ++ joined (row_sides rows.now) (length rows.now.rows.rows)) }
{
    for i in 0..rows.rows() {
        append_row(sides, rows, i)?;
    }
    Ok(())
}

/// Puts the sides of a row at the end.
fn append_row(sides: &mut Vec<NodeSide>, rows: &WorkRows, i: usize) -> Result<(), NoMemory>
    requires { i < length rows.now.rows.rows }
    ensures { OnOk result (sides.new.items ≡ sides.old.items ++ row_sides rows.now i) }
{
    let low = rows.low(i);
    let high = rows.high(i);
    if common_side(low, high).is_some() {
        return Ok(());
    }
    push_side(sides, NodeSide::RowAtMost(i), high)?;
    push_side(sides, NodeSide::RowAtLeast(i), low)
}

/// Puts a side at the end, where there is a value for it.
fn push_side(sides: &mut Vec<NodeSide>, side: NodeSide, value: Option<i128>) -> Result<(), NoMemory>
    ensures { OnOk result (sides.new.items ≡ sides.old.items ++ side_with side value) }
{
    if value.is_some() {
        sides.push(side)?;
    }
    Ok(())
}

/// The value of both sides, where they are there and equal.
pub fn common_side(low: Option<i128>, high: Option<i128>) -> Option<i128>
    ensures { result ≡ common_side low high }
{
    let (Some(least), Some(greatest)) = (low, high) else {
        return None;
    };
    if least == greatest { Some(least) } else { None }
}

/// Puts the bounds of the columns at the end.
fn append_columns(sides: &mut Vec<NodeSide>, columns: usize) -> Result<(), NoMemory>
    ensures { OnOk result (sides.new.items ≡ sides.old.items ++ joined column_sides columns) }
{
    for j in 0..columns {
        sides.push(NodeSide::ColumnAtMost(j))?;
        sides.push(NodeSide::ColumnAtLeast(j))?;
    }
    Ok(())
}

/// Puts the cut at the end, where there is one.
fn append_cut(sides: &mut Vec<NodeSide>, has_cut: bool) -> Result<(), NoMemory>
    ensures { OnOk result (sides.new.items ≡ sides.old.items ++ cut_side has_cut) }
{
    if has_cut {
        sides.push(NodeSide::Cut)?;
    }
    Ok(())
}

/// The factors of a side, one for each work column.
pub(crate) fn side_factors(
    alloc: Global,
    rows: &WorkRows,
    side: NodeSide,
) -> Result<Vec<i128>, NoMemory>
    requires { IsThere rows.now side }
    ensures value { IfOk result (λ factors. factors.items ≡ side_form rows.now side) }
    ensures dense { IfOk result (λ factors. length factors.items ≡ length rows.now.rows.box) }
{
    match side {
        NodeSide::RowAtMost(i) => Ok(rows.row(i).to_vec(alloc)?),
        NodeSide::RowAtLeast(i) => negated(alloc, rows.row(i), rows.bounds()),
        NodeSide::ColumnAtMost(j) => unit(alloc, rows.columns(), j, 1),
        NodeSide::ColumnAtLeast(j) => unit(alloc, rows.columns(), j, -1),
        NodeSide::Cut => Ok(rows.cost().to_vec(alloc)?),
    }
}

/// The factors of a light form with the other sign.
fn negated(alloc: Global, factors: &[i128], bounds: &[Bounds]) -> Result<Vec<i128>, NoMemory>
    requires same_length { length factors.now ≡ length bounds.now }
    requires light { span factors.now bounds.now ≤ 2 ^ 96 }
    ensures { IfOk result (λ turned. turned.items ≡ negate integers factors.now) }
{
    let mut turned = Vec::with_capacity(alloc, factors.len())?;
    for j in 0..factors.len() {
        turned.push(-light_factor(factors, bounds, j))?;
    }
    Ok(turned)
}

/// One of the factors of a light form, which is small.
fn light_factor(factors: &[i128], bounds: &[Bounds], column: usize) -> i128
    requires same_length { length factors.now ≡ length bounds.now }
    requires column { column < length bounds.now }
    requires light { span factors.now bounds.now ≤ 2 ^ 96 }
    ensures value { result ≡ slice_index_or factors.now column (pos 0) }
    ensures small { nat_abs result ≤ 2 ^ 96 }
{
    factors[column]
}

/// A number in the place of a column, and 0 in the others.
fn unit(alloc: Global, columns: usize, column: usize, value: i128) -> Result<Vec<i128>, NoMemory>
    requires { column < columns }
    ensures { IfOk result (λ factors. factors.items ≡ set (zeros integers columns) column value) }
{
    let mut factors = vec![in alloc; 0; columns]?;
    factors[column] = value;
    Ok(factors)
}

/// The limit of a side; none where that of the cut leaves `i128` as it is formed.
pub(crate) fn side_limit(rows: &WorkRows, value: i128, side: NodeSide) -> Option<i128>
    requires { IsThere rows.now side }
    ensures { SomeIff result (LimitFits rows.now value side) (inequality_of rows.now value side).limit }
{
    match side {
        NodeSide::RowAtMost(i) => Some(rows.high(i).unwrap_or(0)),
        NodeSide::RowAtLeast(i) => Some(-rows.low(i).unwrap_or(0)),
        NodeSide::ColumnAtMost(j) => Some(rows.box_high(j)),
        NodeSide::ColumnAtLeast(j) => Some(-lower_bound(rows, j)),
        NodeSide::Cut => value.checked_sub(1)?.checked_sub(rows.cost_constant()),
    }
}

/// The least value of a column, which is small.
fn lower_bound(rows: &WorkRows, column: usize) -> i128
    requires { column < length rows.now.rows.box }
    ensures value { result ≡ (bounds_at rows.now.rows column).low }
    ensures small { nat_abs result ≤ 2 ^ 96 }
{
    rows.bounds()[column].low
}
