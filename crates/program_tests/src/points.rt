//! Points of small nodes, with numbers found by hand.
ghost use Rattle.std.specs.Prelude.{length};
ghost use Rattle.farkas_rows.specs.Refutes.{HasForms};

use crate::small_rows::two_constraints;
use farkas_rows::{Path, Slice};
use node_point::{NodePoint, node_points_are_rational_points};
use spaces::Form;
use std::alloc::Global;
use std::test::Fail;
use whole_rows::DenseRows;

/// Whether the values are a point of the node of this path.
fn is_point(
    alloc: Global,
    rows: &DenseRows,
    path: &Path,
    cut: Option<i128>,
    values: (&[i128], i128),
) -> Result<bool, Fail>
    requires { HasForms (length rows.now.box) path.now }
{
    let (numerators, denominator) = values;
    let point = NodePoint::of(rows, path, cut, numerators.to_vec(alloc)?, denominator);
    Ok(point.is_some())
}

#[test]
fn points_of_the_root(rt: HostRuntime) -> Result<(), Fail> {
    node_points_are_rational_points();
    let alloc = rt.alloc();
    let rows = two_constraints(alloc)?;
    let path = Path::new(alloc);
    // The corner (3, 3/2), at which the cost is -21.
    let cases = [
        (None, [6, 3], 2, true),
        (Some(-20), [6, 3], 2, true),
        (Some(-21), [6, 3], 2, false),
        (None, [7, 3], 2, false),
        (None, [6, 3], 0, false),
        (None, [-6, -3], -2, false),
        (None, [-1, 0], 2, false),
        (None, [0, 9], 3, true),
        (None, [i128::MAX, 0], 1, false),
        (Some(i128::MIN), [0, 0], 1, false),
    ];
    for (cut, numerators, denominator, expected) in cases {
        let found = is_point(alloc, &rows, &path, cut, (&numerators, denominator))?;
        assert_eq!(rt; found, expected);
    }
    assert!(rt; !is_point(alloc, &rows, &path, None, (&[0], 1))?);
    Ok(())
}

#[test]
fn points_of_a_slice(rt: HostRuntime) -> Result<(), Fail> {
    let alloc = rt.alloc();
    let rows = two_constraints(alloc)?;
    let form = Form::of(vec![in alloc; 2, -1]?);
    assert_eq!(rt; form.items().len(), rows.columns());
    let mut path = Path::new(alloc);
    path.push(Slice { form, beta: 4 })?;
    let point = NodePoint::of(&rows, &path, None, vec![in alloc; 5, 2]?, 2).expect(&rt, "a point");
    assert_eq!(rt; point.numerators(), [5, 2].as_slice());
    assert_eq!(rt; point.denominator(), 2);
    assert!(rt; !is_point(alloc, &rows, &path, None, (&[5, 1], 2))?);
    Ok(())
}
