//! Programs over small models and a market model. Each answer passes its check, and the values are those of the exact simplex.
ghost use Rattle.std.specs.Prelude.{◌≡◌, length, IfSome};
ghost use Rattle.farkas_rows.specs.Ends.{inequality_of};
ghost use Rattle.farkas_rows.specs.Refutes.{HasForms, IsDense};

use crate::small_rows::two_constraints;
use farkas_rows::{End, Path, Slice, refutes};
use node_point::NodePoint;
use range_dict::{Extreme, Met, RangeDict, RangeStop, Vertex};
use spaces::{Form, Original};
use std::alloc::Global;
use std::test::Fail;
use whole_rows::{Bounds, DenseRows};

/// Three equalities over twelve columns, each 0 or 1.
fn market(alloc: Global) -> Result<DenseRows, Fail> {
    let bounds = [Bounds { low: 0, high: 1 }; 12];
    let mut rows = DenseRows::new(alloc, bounds.to_vec(alloc)?)?;
    rows.push_row(
        &[49, 55, 20, 83, 24, 83, 93, 98, 22, 0, 26, 94],
        Some(323),
        Some(323),
    )?;
    rows.push_row(
        &[23, 61, 58, 97, 37, 26, 87, 67, 24, 84, 39, 16],
        Some(309),
        Some(309),
    )?;
    rows.push_row(
        &[70, 74, 82, 2, 18, 77, 89, 87, 79, 67, 27, 35],
        Some(353),
        Some(353),
    )?;
    Ok(rows)
}

/// Whether a vertex is a point of the node.
fn is_point(rows: &DenseRows, path: &Path, vertex: Vertex) -> bool
    requires { HasForms (length rows.now.box) path.now }
{
    let Vertex {
        numerators,
        denominator,
    } = vertex;
    NodePoint::of(rows, path, None, numerators, denominator).is_some()
}

/// Whether the answer is that there is no point, and its check passes.
fn is_empty(rows: &DenseRows, path: &Path, met: Met) -> bool
    requires { HasForms (length rows.now.box) path.now }
{
    match met {
        Met::Point(_) => false,
        Met::Empty(line) => refutes(rows, path, &End::Absent, &line),
    }
}

/// The dictionary of the root, where it finds a point that passes its check.
fn root(alloc: Global, rows: &DenseRows) -> Result<Option<RangeDict>, RangeStop> {
    let mut dict = RangeDict::of(alloc, rows, None)?;
    let Met::Point(vertex) = dict.meet(alloc)? else {
        return Ok(None);
    };
    if is_point(rows, &Path::new(alloc), vertex) {
        Ok(Some(dict))
    } else {
        Ok(None)
    }
}

/// Whether the extreme has the value of this fraction, and both its checks pass.
fn has_value<'a>(
    alloc: Global,
    rows: &'a DenseRows,
    end: &'a End<'a>,
    extreme: Extreme,
    fraction: (i128, i128),
) -> bool
    requires { IfSome (inequality_of end.now) (IsDense (length rows.now.box)) }
{
    let Extreme {
        vertex,
        value,
        line,
    } = extreme;
    let (numerator, denominator) = fraction;
    let path = Path::new(alloc);
    let left = value.checked_mul(denominator);
    let right = vertex.denominator.checked_mul(numerator);
    left.is_some()
        && left == right
        && refutes(rows, &path, end, &line)
        && is_point(rows, &path, vertex)
}

/// Whether the least value of a form is this fraction, and nothing lies below `lo`.
fn is_least(
    alloc: Global,
    rows: &DenseRows,
    form: &Form<Original>,
    lo: i128,
    fraction: (i128, i128),
) -> Result<bool, RangeStop> {
    let Some(mut dict) = root(alloc, rows)? else {
        return Ok(false);
    };
    let extreme = dict.least(alloc, form.items())?;
    if form.items().len() != rows.columns() {
        return Ok(false);
    }
    let end = End::Below { form, lo };
    Ok(has_value(alloc, rows, &end, extreme, fraction))
}

/// Whether the greatest value of a form is this fraction, and nothing lies from `from` on.
fn is_greatest(
    alloc: Global,
    rows: &DenseRows,
    form: &Form<Original>,
    from: i128,
    fraction: (i128, i128),
) -> Result<bool, RangeStop> {
    let Some(mut dict) = root(alloc, rows)? else {
        return Ok(false);
    };
    let extreme = dict.greatest(alloc, form.items())?;
    if form.items().len() != rows.columns() {
        return Ok(false);
    }
    let end = End::Above { form, from };
    Ok(has_value(alloc, rows, &end, extreme, fraction))
}

/// Whether no point has this value of the form.
fn is_empty_slice(
    alloc: Global,
    rows: &DenseRows,
    form: Form<Original>,
    beta: i128,
) -> Result<bool, RangeStop> {
    let dict = RangeDict::of(alloc, rows, None)?;
    let mut child = dict.child(alloc, form.items(), beta)?;
    if form.items().len() != rows.columns() {
        return Ok(false);
    }
    let mut path = Path::new(alloc);
    path.push(Slice { form, beta })?;
    let met = child.meet(alloc)?;
    Ok(is_empty(rows, &path, met))
}

/// Whether no point lies below a cut that is set after another one.
fn is_empty_below(
    alloc: Global,
    rows: &DenseRows,
    first: i128,
    cut: i128,
) -> Result<bool, RangeStop> {
    let mut dict = RangeDict::of(alloc, rows, Some(first))?;
    if let Met::Empty(_) = dict.meet(alloc)? {
        return Ok(false);
    }
    dict.set_cut(cut)?;
    let met = dict.meet(alloc)?;
    Ok(is_empty(rows, &Path::new(alloc), met))
}

#[test]
fn two_constraints_at_their_corners(rt: HostRuntime) -> Result<(), Fail> {
    let alloc = rt.alloc();
    let rows = two_constraints(alloc)?;
    let form = Form::of(vec![in alloc; -5, -4]?);
    // At (3, 3/2) and at (0, 0).
    assert!(rt; is_least(alloc, &rows, &form, -21, (-21, 1))?);
    assert!(rt; is_greatest(alloc, &rows, &form, 1, (0, 1))?);
    Ok(())
}

#[test]
fn cuts_and_slices_leave_no_point(rt: HostRuntime) -> Result<(), Fail> {
    let alloc = rt.alloc();
    let rows = two_constraints(alloc)?;
    assert!(rt; is_empty_below(alloc, &rows, -20, -21)?);
    assert!(rt; !is_empty_below(alloc, &rows, -10, -20)?);
    let form = Form::of(vec![in alloc; 2, -1]?);
    assert!(rt; is_empty_slice(alloc, &rows, form, 13)?);
    let form = Form::of(vec![in alloc; 2, -1]?);
    assert!(rt; !is_empty_slice(alloc, &rows, form, 4)?);
    Ok(())
}

#[test]
fn a_market_as_the_exact_simplex_has_it(rt: HostRuntime) -> Result<(), Fail> {
    let alloc = rt.alloc();
    let rows = market(alloc)?;
    let form = Form::of(vec![in alloc; 1, -2, 0, 2, -1, 1, 0, -2, 2, 1, -1, 0]?);
    assert!(rt; is_least(alloc, &rows, &form, -5, (-1595375, 271318))?);
    assert!(rt; is_greatest(alloc, &rows, &form, 7, (1866735, 271318))?);
    assert!(rt; is_empty_slice(alloc, &rows, form, -6)?);
    Ok(())
}

#[test]
fn what_is_wide_is_given_up(rt: HostRuntime) -> Result<(), Fail> {
    let alloc = rt.alloc();
    let bounds = [Bounds {
        low: 0,
        high: 1 << 70,
    }];
    let rows = DenseRows::new(alloc, bounds.to_vec(alloc)?)?;
    assert!(rt; matches!(RangeDict::of(alloc, &rows, None), Err(RangeStop::Wide)));
    let rows = two_constraints(alloc)?;
    let dict = RangeDict::of(alloc, &rows, None)?;
    assert!(rt; matches!(dict.child(alloc, &[1], 0), Err(RangeStop::Wide)));
    assert_eq!(rt; dict.copied(alloc)?.pivots(), 0);
    Ok(())
}
