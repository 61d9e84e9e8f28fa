//! Small rows, with numbers found by hand.
use std::test::Fail;
use whole_rows::{
    Bounds, BoxStop, DenseRows, End, HEAVIEST, HeavyCost, RowStop, reaches_sides, span_of,
    with_term,
};

/// x from 0 to 3, and y from -2 to 5.
const BOX: [Bounds; 2] = [Bounds { low: 0, high: 3 }, Bounds { low: -2, high: 5 }];

#[test]
fn rows_are_those_that_were_put(rt: HostRuntime) -> Result<(), Fail> {
    // -1 <= 2x - y <= 4, and 3y <= 9
    let mut rows = DenseRows::new(rt.alloc(), BOX.to_vec(rt.alloc())?)?;
    rows.push_row(&[2, -1], Some(-1), Some(4))?;
    rows.push_row(&[0, 3], None, Some(9))?;
    rows.set_cost(&[1, -2])?;
    assert_eq!(rt; rows.columns(), 2);
    assert_eq!(rt; rows.rows(), 2);
    assert_eq!(rt; rows.row(1), [0, 3].as_slice());
    assert_eq!(rt; rows.low(0), Some(-1));
    assert_eq!(rt; rows.high(1), Some(9));
    assert_eq!(rt; rows.weight(0), 2 * 3 + 5 + 1 + 4);
    assert_eq!(rt; rows.box_low(1), -2);
    assert_eq!(rt; rows.reach(1), 5);
    assert_eq!(rt; rows.cost(), [1, -2].as_slice());
    assert!(rt; rows.is_point(&[2, 3]));
    assert_eq!(rt; rows.cut_value(&[2, 3]), -4);
    for x in [[0, 2], [3, 1], [1, 4], [4, 3]] {
        assert!(rt; !rows.is_point(&x));
    }
    assert!(rt; !rows.is_point(&[2]));
    Ok(())
}

/// The heaviest number that is taken, as one with a sign.
const LIMIT: i128 = 1 << 96;

#[test]
fn what_weighs_too_much_is_refused(rt: HostRuntime) -> Result<(), Fail> {
    assert_eq!(rt; HEAVIEST, 1 << 96);
    for (high, heavy) in [(LIMIT, None), (LIMIT + 1, Some(BoxStop::Heavy(1)))] {
        let bounds = [Bounds { low: 0, high: 1 }, Bounds { low: 0, high }];
        let made = DenseRows::new(rt.alloc(), bounds.to_vec(rt.alloc())?);
        assert_eq!(rt; made.err(), heavy);
    }
    let bounds = [Bounds { low: 0, high: 1 }];
    let mut rows = DenseRows::new(rt.alloc(), bounds.to_vec(rt.alloc())?)?;
    let refused = rows.push_row(&[LIMIT - 1], None, Some(2));
    assert_eq!(rt; refused, Err(RowStop::Heavy));
    assert_eq!(rt; rows.columns(), 1);
    assert_eq!(rt; rows.set_cost(&[-LIMIT - 1]), Err(HeavyCost));
    assert_eq!(rt; with_term(3, -2, 5), Some(13));
    Ok(())
}

#[test]
fn a_sum_lies_between_its_ends(rt: HostRuntime) {
    assert_eq!(rt; span_of(&[2, -1], &BOX), Some(11));
    assert_eq!(rt; End::Least.sum(&[2, -1], &BOX), -5);
    assert_eq!(rt; End::Greatest.sum(&[2, -1], &BOX), 8);
    assert_eq!(rt; End::Least.value(-1, BOX[1]), 5);
    assert!(rt; reaches_sides(&[2, -1], Some(8), Some(-5), &BOX));
    assert!(rt; !reaches_sides(&[2, -1], Some(9), None, &BOX));
    assert!(rt; !reaches_sides(&[2, -1], None, Some(-6), &BOX));
}
