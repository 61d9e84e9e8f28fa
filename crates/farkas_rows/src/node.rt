//! The inequalities of a node by their numbers.
ghost use Rattle.std.specs.Prelude.{◌≡◌, ◌↔◌, ℕ, ◌<◌, length, Option, Some, option_map, unwrap_or, IsTrue, IsSome, IfSome};
ghost use Rattle.whole_rows.specs.WholeRows.{row_at, bounds_at};
ghost use Rattle.farkas_rows.specs.Ends.{inequality_of};
ghost use Rattle.farkas_rows.specs.Inequalities.{at_most, at_least, unit, inequality_at, cut_inequality};
ghost use Rattle.farkas_rows.specs.Refutes.{HasForms, IsDense, nothing};
ghost use Rattle.farkas_rows.specs.Sides.{inequality_in, IsSideIn, side_of_row, side_of_form};

use crate::line::End;
use crate::path::Slice;
use crate::side::{Bound, Factors, Side};
use whole_rows::DenseRows;

/// The inequality of this number: two for each row, two for each column, two for each slice, and that of the end. The
/// upper side of each comes first. There is none where a side is absent, or the number is too large.
pub(crate) fn side_at<'a>(
    rows: &'a DenseRows,
    path: &'a [Slice],
    end: &'a End<'a>,
    number: u32,
) -> Option<Side<'a>>
    requires path { HasForms (length rows.now.box) path.now }
    requires end { IfSome (inequality_of end.now) (IsDense (length rows.now.box)) }
    ensures side { option_map (inequality_in (length rows.now.box)) result ≡ inequality_at rows.now path.now (inequality_of end.now) number }
    ensures within { IfSome result (IsSideIn (length rows.now.box)) }
{
    let is_lower = number % 2 == 1;
    let at = (number / 2) as usize;
    if at < rows.rows() {
        return row_side(rows, at, is_lower);
    }
    let at = at - rows.rows();
    if at < rows.columns() {
        return Some(column_side(rows, at, is_lower));
    }
    let at = at - rows.columns();
    if at < path.len() {
        return Some(slice_side(&path[at], is_lower));
    }
    if at == path.len() && !is_lower {
        end_side(end)
    } else {
        None
    }
}

/// Whether the number names an inequality of the node. It takes no memory.
pub fn has_side<'a>(rows: &'a DenseRows, path: &'a [Slice], end: &'a End<'a>, number: u32) -> bool
    requires path { HasForms (length rows.now.box) path.now }
    requires end { IfSome (inequality_of end.now) (IsDense (length rows.now.box)) }
    ensures { IsTrue result ↔ IsSome (inequality_at rows.now path.now (inequality_of end.now) number) }
{
    side_at(rows, path, end, number).is_some()
}

/// The inequality of a number that names one.
pub(crate) fn named_side<'a>(
    rows: &'a DenseRows,
    path: &'a [Slice],
    end: &'a End<'a>,
    number: u32,
) -> Side<'a>
    requires path { HasForms (length rows.now.box) path.now }
    requires end { IfSome (inequality_of end.now) (IsDense (length rows.now.box)) }
    requires there { IsSome (inequality_at rows.now path.now (inequality_of end.now) number) }
    ensures side { inequality_in (length rows.now.box) result ≡ unwrap_or (inequality_at rows.now path.now (inequality_of end.now) number) nothing }
    ensures within { IsSideIn (length rows.now.box) result }
{
    side_at(rows, path, end, number).unwrap()
}

/// The cut with this value.
pub(crate) fn cut_side(rows: &DenseRows, value: i128) -> Side<'_>
    ensures side { inequality_in (length rows.now.box) result ≡ cut_inequality rows.now value }
    ensures within { IsSideIn (length rows.now.box) result }
{
    Side {
        factors: Factors::Dense(rows.cost()),
        bound: Bound::Below(value),
    }
}

/// A side of row `i`, where it is there.
fn row_side(rows: &DenseRows, i: usize, is_lower: bool) -> Option<Side<'_>>
    requires { i < length rows.now.rows }
    ensures side { option_map (inequality_in (length rows.now.box)) result ≡ side_of_row (row_at rows.now i) is_lower }
    ensures within { IfSome result (IsSideIn (length rows.now.box)) }
{
    let bound = if is_lower {
        Bound::AtLeast(rows.low(i)?)
    } else {
        Bound::AtMost(rows.high(i)?)
    };
    Some(Side {
        factors: Factors::Dense(rows.row(i)),
        bound,
    })
}

/// A bound of column `j`.
fn column_side(rows: &DenseRows, j: usize, is_lower: bool) -> Side<'_>
    requires { j < length rows.now.box }
    ensures side { inequality_in (length rows.now.box) result ≡ side_of_form (unit (length rows.now.box) j) (bounds_at rows.now j).low (bounds_at rows.now j).high is_lower }
    ensures within { IsSideIn (length rows.now.box) result }
{
    Side {
        factors: Factors::Unit(j),
        bound: if is_lower {
            Bound::AtLeast(rows.box_low(j))
        } else {
            Bound::AtMost(rows.box_high(j))
        },
    }
}

/// A side of a slice.
fn slice_side(slice: &Slice, is_lower: bool) -> Side<'_>
    ensures side { (columns : ℕ) → inequality_in columns result ≡ side_of_form slice.now.form slice.now.beta slice.now.beta is_lower }
    ensures within { IsSideIn (length slice.now.form) result }
{
    Side {
        factors: Factors::Dense(slice.form.items()),
        bound: if is_lower {
            Bound::AtLeast(slice.beta)
        } else {
            Bound::AtMost(slice.beta)
        },
    }
}

/// The inequality of the end, where there is an end.
fn end_side<'a>(end: &End<'a>) -> Option<Side<'a>>
    ensures side { (columns : ℕ) → option_map (inequality_in columns) result ≡ inequality_of end.now }
    ensures within { (columns : ℕ) → IfSome (inequality_of end.now) (IsDense columns) → IfSome result (IsSideIn columns) }
{
    match end {
        End::Absent => None,
        End::Below { form, lo } => Some(Side {
            factors: Factors::Dense(form.items()),
            bound: Bound::Below(*lo),
        }),
        End::Above { form, from } => Some(Side {
            factors: Factors::Dense(form.items()),
            bound: Bound::AtLeast(*from),
        }),
    }
}
