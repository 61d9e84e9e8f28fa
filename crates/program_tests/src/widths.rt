//! Widths found by hand.
use crate::systems::{form_of, grid_of, system_of};
use frac128::Frac;
use norm_gauge::width;
use std::test::Fail;

#[test]
fn the_sum_over_a_thin_triangle(rt: HostRuntime) -> Result<(), Fail> {
    // 10x + y >= 2, x + 10y >= 2, 10x + 11y <= 19, and both from 0 to 2
    let items = [-10, -1, -1, -10, 10, 11, 1, 0, -1, 0, 0, 1, 0, -1];
    let system = system_of(rt.alloc(), 2, &items, &[-2, -2, 19, 2, 0, 2, 0])?;
    let basis = grid_of(rt.alloc(), 1, 2, &[1, 1])?;
    let form = form_of(rt.alloc(), &[1, 1])?;
    let gauge = width(rt.alloc(), &system, &basis, 0, &form)?;
    assert_eq!(rt; gauge.value, Frac::new(1503, 979)?);
    assert_eq!(rt; gauge.least, Frac::new(4, 11)?);
    assert_eq!(rt; gauge.greatest, Frac::new(169, 89)?);
    let low = [Frac::new(2, 11)?, Frac::new(2, 11)?];
    assert_eq!(rt; gauge.low.items(), low.as_slice());
    let high = [Frac::new(168, 89)?, Frac::new(1, 89)?];
    assert_eq!(rt; gauge.high.items(), high.as_slice());
    assert_eq!(rt; gauge.below.items().len(), 7);
    assert_eq!(rt; gauge.above.items().len(), 7);
    Ok(())
}

#[test]
fn a_column_of_a_box_under_the_sum(rt: HostRuntime) -> Result<(), Fail> {
    let items = [1, 0, -1, 0, 0, 1, 0, -1];
    let system = system_of(rt.alloc(), 2, &items, &[2, 0, 2, 0])?;
    let basis = grid_of(rt.alloc(), 1, 2, &[1, 1])?;
    let form = form_of(rt.alloc(), &[1, 0])?;
    let gauge = width(rt.alloc(), &system, &basis, 1, &form)?;
    assert_eq!(rt; gauge.value, Frac::whole(2));
    let high = [Frac::whole(2), Frac::whole(0)];
    assert_eq!(rt; gauge.high.items(), high.as_slice());
    let low = [Frac::whole(0), Frac::whole(2)];
    assert_eq!(rt; gauge.low.items(), low.as_slice());
    assert_eq!(rt; gauge.below.items().len(), 10);
    assert_eq!(rt; gauge.above.items().len(), 0);
    Ok(())
}
