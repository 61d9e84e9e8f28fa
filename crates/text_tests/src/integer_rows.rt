//! The integer rows of small models, by hand.
use frac128::Frac;
use int_model::{IntRows, Part, RowsStop};
use mps_model::{Layout, read};
use std::alloc::Global;
use std::test::Fail;

/// The integer rows of the model that a short text in free form states.
fn int_rows(alloc: Global, text: &[u8]) -> Result<Result<IntRows, RowsStop>, Fail> {
    if text.len() > 1000 {
        return Err("a long text")?;
    }
    let model = read(alloc, Layout::Free, None, text)?;
    Ok(IntRows::of(alloc, &model))
}

/// 2x + 4y = 7, x and y from 0 to 10.
const EVEN_SUM: &[u8] =
    b"ROWS\n E r\nCOLUMNS\n x r 2\n y r 4\nRHS\n r 7\nBOUNDS\n UI x 10\n UI y 10\nENDATA\n";

#[test]
fn an_even_sum_is_halved(rt: HostRuntime) -> Result<(), Fail> {
    let rows = int_rows(rt.alloc(), EVEN_SUM)??;
    assert_eq!(rt; rows.columns(), 2);
    assert_eq!(rt; rows.rows(), 1);
    assert_eq!(rt; rows.row(0), [1, 2].as_slice());
    assert_eq!(rt; rows.low(0), Some(4));
    assert_eq!(rt; rows.high(0), Some(3));
    assert_eq!(rt; rows.weight(0), 10 + 20 + 4 + 3);
    Ok(())
}

/// The least of -x/2 + 3y/2 - 1/4, where x/2 >= 5/4, x from -1/2 to 7/2 and y from 0 to 10.
const ROUNDED: &[u8] =
    b"ROWS\n N c\n G r\nCOLUMNS\n x c -0.5 r 0.5\n y c 1.5\nRHS\n c 0.25 r 1.25\nBOUNDS\n LI x -0.5\n UI x 3.5\n UI y 10\nENDATA\n";

#[test]
fn sides_and_bounds_are_rounded_inward(rt: HostRuntime) -> Result<(), Fail> {
    let rows = int_rows(rt.alloc(), ROUNDED)??;
    assert_eq!(rt; rows.columns(), 2);
    assert_eq!(rt; rows.rows(), 1);
    assert_eq!(rt; rows.box_low(0), 0);
    assert_eq!(rt; rows.box_high(0), 3);
    assert_eq!(rt; rows.reach(0), 3);
    assert_eq!(rt; rows.row(0), [1, 0].as_slice());
    assert_eq!(rt; rows.low(0), Some(3));
    assert_eq!(rt; rows.high(0), None);
    assert_eq!(rt; rows.weight(0), 3 + 3);
    assert_eq!(rt; rows.cost(), [-1, 3].as_slice());
    assert!(rt; !rows.is_point(&[2, 2]));
    assert!(rt; rows.is_point(&[3, 2]));
    assert_eq!(rt; rows.cut_value(&[3, 2]), 3);
    assert_eq!(rt; rows.value(&[3, 2]), Frac::new(5, 4)?);
    Ok(())
}

/// Texts, and the first part that is too large. 79228162514264337593543950336 is 2^96, and a quarter of 10^-38 is no fraction here.
const CASES: [(&[u8], Option<Part>); 6] = [
    // Columns before rows, and rows before the objective; the first row has just the limit.
    (
        b"ROWS\n N c\n L r\nCOLUMNS\n x c 79228162514264337593543950337 r 1\n y r 1\nRHS\n r 79228162514264337593543950336\nBOUNDS\n BV x\n UI y 79228162514264337593543950337\nENDATA\n",
        Some(Part::Column(1)),
    ),
    (
        b"ROWS\n N c\n L q\n L r\nCOLUMNS\n x c 79228162514264337593543950337 q 1\n y r 1\nRHS\n q 79228162514264337593543950335 r 79228162514264337593543950336\nBOUNDS\n BV x\n BV y\nENDATA\n",
        Some(Part::Row(1)),
    ),
    (
        b"ROWS\n N c\nCOLUMNS\n x c 79228162514264337593543950337\nBOUNDS\n BV x\nENDATA\n",
        Some(Part::Objective),
    ),
    // Products with the scale that are out of range, and none where all factors are 0.
    (
        b"ROWS\n G r\nCOLUMNS\n x r 4\nRHS\n r 1e-38\nBOUNDS\n BV x\nENDATA\n",
        Some(Part::Row(0)),
    ),
    (
        b"ROWS\n G r\nCOLUMNS\n x r 0\nRHS\n r 1e-38\nBOUNDS\n BV x\nENDATA\n",
        None,
    ),
    (
        b"ROWS\n N c\nCOLUMNS\n x c 0.25\nRHS\n c 85070591730234615865843651857942052864\nBOUNDS\n BV x\nENDATA\n",
        Some(Part::Objective),
    ),
];

#[test]
fn the_first_large_part_is_named(rt: HostRuntime) -> Result<(), Fail> {
    for (text, wanted) in CASES {
        let large = match int_rows(rt.alloc(), text)? {
            Ok(_rows) => None,
            Err(RowsStop::Large(part)) => Some(part),
            Err(stop) => return Err(stop)?,
        };
        assert_eq!(rt; large, wanted);
    }
    Ok(())
}
