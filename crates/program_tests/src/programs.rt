//! Small systems, with answers found by hand.
use crate::systems::{form_of, system_of};
use frac128::Frac;
use lp_solve::{Ended, Solved, minimise, minimise_with_pivots};
use std::test::Fail;

#[test]
fn contrary_rows_have_no_point(rt: HostRuntime) -> Result<(), Fail> {
    // x <= 0 and -x <= -1
    let system = system_of(rt.alloc(), 1, &[1, -1], &[0, -1])?;
    let form = form_of(rt.alloc(), &[1])?;
    let Ended { solved, pivots } = minimise_with_pivots(rt.alloc(), &system, &form)?;
    let Solved::Empty { multipliers } = solved else {
        return Err("an answer other than Empty".into());
    };
    assert_eq!(rt; pivots.items().len(), 1);
    assert_eq!(rt; multipliers.items().len(), 2);
    assert_eq!(rt; multipliers.items()[0], multipliers.items()[1]);
    assert!(rt; multipliers.items()[0].num() > 0);
    Ok(())
}

#[test]
fn two_constraints_have_a_least_value(rt: HostRuntime) -> Result<(), Fail> {
    // 3x + 2y <= 12, x + 2y <= 6, and both from 0 to 10
    let items = [3, 2, 1, 2, 1, 0, -1, 0, 0, 1, 0, -1];
    let system = system_of(rt.alloc(), 2, &items, &[12, 6, 10, 0, 10, 0])?;
    let form = form_of(rt.alloc(), &[-5, -4])?;
    let Solved::Least {
        point,
        value,
        multipliers,
    } = minimise(rt.alloc(), &system, &form)?
    else {
        return Err("an answer other than Least".into());
    };
    assert_eq!(rt; value, Frac::whole(-21));
    assert_eq!(rt; point.items().len(), 2);
    assert_eq!(rt; point.items()[0], Frac::whole(3));
    assert_eq!(rt; point.items()[1].num(), 3);
    assert_eq!(rt; point.items()[1].den(), 2);
    assert_eq!(rt; multipliers.items().len(), 6);
    Ok(())
}
