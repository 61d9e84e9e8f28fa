//! Small roots, with what is left of them found by hand.
use farkas_rows::OriginalTimes;
use frac128::Frac;
use presolve_map::{Presolved, WorkTimes, lift_form, lift_line, presolve};
use sequence::NoMemory;
use spaces::Form;
use std::alloc::Global;
use std::test::Fail;
use whole_rows::{Bounds, DenseRows};

/// 3x + 5y between two sides, at a cost of 2x + 7y.
fn root(alloc: Global, x: Bounds, y: Bounds, low: i128, high: i128) -> Result<DenseRows, Fail> {
    let mut rows = DenseRows::new(alloc, vec![in alloc; x, y]?)?;
    rows.push_row(&[3, 5], Some(low), Some(high))?;
    rows.set_cost(&[2, 7])?;
    Ok(rows)
}

/// The same where x is 1, y is from 0 to 3, and the sum is 8.
fn fixed(alloc: Global) -> Result<DenseRows, Fail> {
    let (x, y) = (Bounds { low: 1, high: 1 }, Bounds { low: 0, high: 3 });
    root(alloc, x, y, 8, 8)
}

#[test]
fn a_fixed_column_leaves(rt: HostRuntime) -> Result<(), Fail> {
    let rows = fixed(rt.alloc())?;
    let Presolved::Open { map: _, rows: work } = presolve(rt.alloc(), &rows)? else {
        return Err(NoMemory)?;
    };
    assert_eq!(rt; work.columns(), 1);
    assert_eq!(rt; work.original_column(0), 1);
    assert_eq!(rt; work.cost_constant(), 2);
    Ok(())
}

#[test]
fn the_sides_of_a_row_move(rt: HostRuntime) -> Result<(), Fail> {
    let rows = fixed(rt.alloc())?;
    let Presolved::Open { map: _, rows: work } = presolve(rt.alloc(), &rows)? else {
        return Err(NoMemory)?;
    };
    assert_eq!(rt; work.rows(), 1);
    assert_eq!(rt; work.row(0), [5].as_slice());
    assert_eq!(rt; work.low(0), Some(5));
    assert_eq!(rt; work.high(0), Some(5));
    assert_eq!(rt; work.original_row(0), 0);
    Ok(())
}

#[test]
fn a_form_is_lifted(rt: HostRuntime) -> Result<(), Fail> {
    let rows = fixed(rt.alloc())?;
    let Presolved::Open { map, rows: _ } = presolve(rt.alloc(), &rows)? else {
        return Err(NoMemory)?;
    };
    assert_eq!(rt; map.base().items(), [1, 0].as_slice());
    let form = Form::of(vec![in rt.alloc(); 4]?);
    assert_eq!(rt; form.items().len(), map.lines().width());
    let lifted = lift_form(rt.alloc(), &map, &form)?;
    assert_eq!(rt; lifted.items(), [0, 4].as_slice());
    Ok(())
}

#[test]
fn a_row_that_the_box_meets_leaves(rt: HostRuntime) -> Result<(), Fail> {
    let column = Bounds { low: 0, high: 1 };
    let rows = root(rt.alloc(), column, column, 0, 8)?;
    let Presolved::Open { map: _, rows: work } = presolve(rt.alloc(), &rows)? else {
        return Err(NoMemory)?;
    };
    assert_eq!(rt; work.columns(), 2);
    assert_eq!(rt; work.rows(), 0);
    Ok(())
}

#[test]
fn roots_are_closed(rt: HostRuntime) -> Result<(), Fail> {
    let column = Bounds { low: 0, high: 1 };
    let crossing = root(rt.alloc(), Bounds { low: 1, high: 0 }, column, 0, 8)?;
    assert!(rt; matches!(presolve(rt.alloc(), &crossing)?, Presolved::Closed(_)));
    let out_of_reach = root(rt.alloc(), column, column, 9, 20)?;
    assert!(rt; matches!(presolve(rt.alloc(), &out_of_reach)?, Presolved::Closed(_)));
    let empty = root(rt.alloc(), column, column, 5, 4)?;
    assert!(rt; matches!(presolve(rt.alloc(), &empty)?, Presolved::Closed(_)));
    Ok(())
}

#[test]
fn a_bound_takes_the_sum_of_a_removed_column(rt: HostRuntime) -> Result<(), Fail> {
    let rows = fixed(rt.alloc())?;
    let times = WorkTimes {
        cut: Frac::whole(1),
        items: OriginalTimes::new(rt.alloc()),
    };
    let line = lift_line(rt.alloc(), &rows, &times)?;
    assert_eq!(rt; line.items().len(), 1);
    assert_eq!(rt; line.items()[0].index, 3);
    assert_eq!(rt; line.items()[0].times, Frac::whole(2));
    Ok(())
}
