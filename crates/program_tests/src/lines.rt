//! Lines over small rows, with sums and multiples found by hand.
ghost use Rattle.std.specs.Prelude.{◌≢◌, pos};
ghost use Rattle.exact_math.specs.Rational.{whole, ◌<ℚ◌};

use crate::small_rows::two_constraints;
use farkas_rows::{
    CutUse, End, FracUse, OriginalTimes, Path, Slice, Use, from_fracs, refutes_parts,
};
use frac128::Frac;
use spaces::Form;
use std::process::Abort;
use std::test::Fail;
use whole_rows::{Bounds, DenseRows};

const fn use_of(index: u32, times: i128) -> Use {
    Use { index, times }
}

#[test]
fn lines_below_a_split(rt: HostRuntime) -> Result<(), Fail> {
    let rows = two_constraints(rt.alloc())?;
    let y = Form::of(vec![in rt.alloc(); 0, 1]?);
    assert_eq!(rt; y.items().len(), rows.columns());
    let end = End::Below { form: &y, lo: 2 };
    let cut = Some(CutUse {
        value: -20,
        times: 3,
    });
    let cases = [
        // 3 * (-5x - 4y <= -21) + 5 * (3x + 2y <= 12) + 2 * (y <= 1)
        ([use_of(0, 5), use_of(8, 2)], true),
        // The sum in x is left.
        ([use_of(0, 6), use_of(8, 2)], false),
        // Numbers that do not rise, that name an absent side or none, and a multiplier of 0.
        ([use_of(8, 2), use_of(0, 5)], false),
        ([use_of(1, 5), use_of(8, 2)], false),
        ([use_of(0, 5), use_of(9, 2)], false),
        ([use_of(0, 5), use_of(8, 0)], false),
    ];
    for (items, is_refuted) in &cases {
        assert_eq!(rt;
            refutes_parts(&rows, &[], &end, &cut, items.as_slice()),
            *is_refuted
        );
    }
    Ok(())
}

#[test]
fn lines_on_slices(rt: HostRuntime) -> Result<(), Fail> {
    let rows = two_constraints(rt.alloc())?;
    let form = Form::of(vec![in rt.alloc(); 1, 1]?);
    assert_eq!(rt; form.items().len(), rows.columns());
    let mut path = Path::new(rt.alloc());
    path.push(Slice { form, beta: 7 })?;
    // (-x - y <= -7) + (x + 2y <= 6) + (-y <= 0)
    let items = [use_of(2, 1), use_of(7, 1), use_of(9, 1)];
    let refuted = refutes_parts(&rows, path.items(), &End::Absent, &None, &items);
    assert!(rt; refuted);
    Ok(())
}

#[tactic(auto, using(exact_math::specs::RationalTests::rational_tests))]
fn positive(rt: &impl Abort, num: i128, den: i128) -> Frac
    requires { den ≢ pos 0 }
    ensures { whole (pos 0) <ℚ result }
{
    let number = Frac::new(num, den).ok().expect(rt, "a fraction");
    assert!(rt; Frac::whole(0) < number);
    number
}

#[test]
fn least_whole_line(rt: HostRuntime) -> Result<(), Fail> {
    let alloc = rt.alloc();
    let mut rows = DenseRows::new(alloc, vec![in alloc; Bounds { low: -5, high: 5 }]?)?;
    rows.push_row(&[1], None, Some(0))?;
    rows.push_row(&[-1], None, Some(-1))?;
    let half = positive(&rt, 1, 2);
    let mut times = OriginalTimes::new(alloc);
    times.push(FracUse {
        index: 0,
        times: half,
    })?;
    times.push(FracUse {
        index: 2,
        times: half,
    })?;
    let path = Path::new(alloc);
    let line = from_fracs(alloc, &rows, &path, &End::Absent, &None, &times)?;
    assert_eq!(rt;
        line.items.items(),
        [Use { index: 0, times: 1 }, Use { index: 2, times: 1 }].as_slice()
    );
    Ok(())
}
