//! The parts of a node, each checked at numerators over a denominator.
ghost use Rattle.std.specs.Prelude.{◌≡◌, ◌↔◌, IsTrue, length, All};
ghost use Rattle.std.specs.List.{AllZip};
ghost use Rattle.farkas_rows.specs.Refutes.{HasForms};
ghost use Rattle.node_point.specs.Checks.{TellsColumn, TellsRow, TellsSlice, TellsCut, TellsPoint};

use crate::sides::{is_at_least, is_at_most, lies_between};
use farkas_rows::Path;
use whole_rows::{Bounds, DenseRows};

/// Whether the numerators over the denominator are a point of the node, and all numbers on the way fit.
pub(crate) fn is_point(
    rows: &DenseRows,
    path: &Path,
    cut: Option<i128>,
    numerators: &[i128],
    denominator: i128,
) -> bool
    requires { HasForms (length rows.now.box) path.now }
    ensures { IsTrue result ↔ TellsPoint rows.now path.now cut denominator numerators.now }
{
    if denominator <= 0 || !is_in_box(rows.bounds(), numerators, denominator) {
        return false;
    }
    is_in_rows(rows, numerators, denominator)
        && is_on_path(path, numerators, denominator)
        && is_below_cut(rows, cut, numerators, denominator)
}

/// Whether there are as many numerators as columns, and each column lies between its bounds.
pub(crate) fn is_in_box(bounds: &[Bounds], numerators: &[i128], denominator: i128) -> bool
    ensures { IsTrue result ↔ AllZip (TellsColumn denominator) bounds.now numerators.now }
{
    if bounds.len() != numerators.len() {
        return false;
    }
    for j in 0..numerators.len() {
        if !is_in_bounds(bounds[j], numerators[j], denominator) {
            return false;
        }
    }
    true
}

/// Whether a column lies between its bounds.
fn is_in_bounds(bounds: Bounds, value: i128, denominator: i128) -> bool
    ensures { IsTrue result ↔ TellsColumn denominator bounds value }
{
    is_at_least(Some(bounds.low), denominator, value)
        && is_at_most(Some(bounds.high), denominator, value)
}

/// Whether each row's sum lies between its sides.
pub(crate) fn is_in_rows(rows: &DenseRows, numerators: &[i128], denominator: i128) -> bool
    requires { length numerators.now ≡ length rows.now.box }
    ensures { IsTrue result ↔ All (TellsRow denominator numerators.now) rows.now.rows }
{
    for i in 0..rows.rows() {
        if !lies_between(
            rows.row(i),
            rows.low(i),
            rows.high(i),
            numerators,
            denominator,
        ) {
            return false;
        }
    }
    true
}

/// Whether each slice's form has its value.
pub(crate) fn is_on_path(path: &Path, numerators: &[i128], denominator: i128) -> bool
    requires { HasForms (length numerators.now) path.now }
    ensures { IsTrue result ↔ All (TellsSlice denominator numerators.now) path.now }
{
    let slices = path.items();
    for slice in slices {
        let side = Some(slice.beta);
        if !lies_between(slice.form.items(), side, side, numerators, denominator) {
            return false;
        }
    }
    true
}

/// Whether the costs come to at most the cut's value less 1, where there is a cut.
pub(crate) fn is_below_cut(
    rows: &DenseRows,
    cut: Option<i128>,
    numerators: &[i128],
    denominator: i128,
) -> bool
    requires { length numerators.now ≡ length rows.now.box }
    ensures { IsTrue result ↔ TellsCut denominator numerators.now rows.now.cost cut }
{
    let Some(value) = cut else {
        return true;
    };
    match value.checked_sub(1) {
        Some(side) => lies_between(rows.cost(), None, Some(side), numerators, denominator),
        None => false,
    }
}
