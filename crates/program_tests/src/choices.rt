//! The choice among the candidates for a direction, with answers found by hand.
use crate::systems::{grid_of, system_of};
use std::test::Fail;
use thin_columns::thin_column;
use thin_forms::{ThinForm, thinnest};

#[test]
fn the_first_row_of_a_strip_is_chosen(rt: HostRuntime) -> Result<(), Fail> {
    // 301 <= 1001x - 1000y <= 699, and both from 0 to 300; the columns are x, y, a constant and 3x - 3y
    let items = [1001, -1000, -1001, 1000, 1, 0, -1, 0, 0, 1, 0, -1];
    let system = system_of(rt.alloc(), 2, &items, &[699, -301, 300, 0, 300, 0])?;
    let lines = grid_of(rt.alloc(), 4, 2, &[1, 0, 0, 1, 0, 0, 3, -3])?;
    let ThinForm { form, gauge } = thinnest(rt.alloc(), &system, &lines)?;
    let forward = form.items() == [1, -1].as_slice();
    let backward = form.items() == [-1, 1].as_slice();
    assert!(rt; forward || backward);
    assert_eq!(rt; gauge.value.num(), 697999);
    assert_eq!(rt; gauge.value.den(), 1001000);
    Ok(())
}

#[test]
fn a_column_is_thinner_than_the_basis(rt: HostRuntime) -> Result<(), Fail> {
    // 10x + y >= 2, x + 10y >= 2, 10x + 11y <= 19, and both from 0 to 2; the columns are x, y and 2x + 2y
    let items = [-10, -1, -1, -10, 10, 11, 1, 0, -1, 0, 0, 1, 0, -1];
    let system = system_of(rt.alloc(), 2, &items, &[-2, -2, 19, 2, 0, 2, 0])?;
    let lines = grid_of(rt.alloc(), 3, 2, &[1, 0, 0, 1, 2, 2])?;
    let ThinForm { form, gauge } = thinnest(rt.alloc(), &system, &lines)?;
    assert_eq!(rt; form.items(), [1, 1].as_slice());
    assert_eq!(rt; gauge.value.num(), 1503);
    assert_eq!(rt; gauge.value.den(), 979);
    Ok(())
}

#[test]
fn a_column_of_a_triangle_is_shown_to_be_a_direction(rt: HostRuntime) -> Result<(), Fail> {
    // The same triangle and columns. 1503/979 times 7 points is 10.75: times a size of 10 or 11 less than 8 times the slack of
    // each side, which is 15.03 at least, and less than 8 times that of each bound, which is 1.7 at least.
    let items = [-10, -1, -1, -10, 10, 11, 1, 0, -1, 0, 0, 1, 0, -1];
    let system = system_of(rt.alloc(), 2, &items, &[-2, -2, 19, 2, 0, 2, 0])?;
    let lines = grid_of(rt.alloc(), 3, 2, &[1, 0, 0, 1, 2, 2])?;
    let is_sum = match thin_column(rt.alloc(), &system, &lines)? {
        Some(form) => form.items() == [1, 1].as_slice(),
        None => false,
    };
    assert!(rt; is_sum);
    Ok(())
}

#[test]
fn a_column_of_a_strip_is_not_shown(rt: HostRuntime) -> Result<(), Fail> {
    // The same strip and columns: 697999/1001000 times 6 points and a size of 1001 is more than 8 times the slack 398 of the
    // strip, though x - y is a direction.
    let items = [1001, -1000, -1001, 1000, 1, 0, -1, 0, 0, 1, 0, -1];
    let system = system_of(rt.alloc(), 2, &items, &[699, -301, 300, 0, 300, 0])?;
    let lines = grid_of(rt.alloc(), 4, 2, &[1, 0, 0, 1, 0, 0, 3, -3])?;
    let found = thin_column(rt.alloc(), &system, &lines)?;
    assert!(rt; found.is_none());
    Ok(())
}
