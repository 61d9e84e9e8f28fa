//! The two sides of a row or a slice.
ghost use Rattle.std.specs.Prelude.{◌≡◌, ◌^◌, ◌≤◌, unsigned_abs, length, IfSome, IfNone};
ghost use Rattle.whole_rows.specs.WholeRows.{span};
ghost use Rattle.whole_rows.specs.Ends.{ReachesSides};
ghost use Rattle.plain_slices.specs.Sides.{IsOutOfReach};

use whole_rows::{Bounds, End};

/// One of the two sides of a row or a slice: the sum of the products is at most the upper one, and at least the lower one.
#[derive(Clone, Copy, Debug, PartialEq, Eq, Drop)]
pub(crate) enum Side {
    Upper,
    Lower,
}

impl Side {
    ghost use Rattle.plain_slices.specs.Sides.{side_factor, side_number};

    /// A column's factor in the inequality of this side, by which a sum is at most a limit.
    pub(crate) fn factor(self, factor: i128) -> i128
        requires { unsigned_abs factor ≤ 2 ^ 96 }
        ensures { result ≡ side_factor self factor }
    {
        match self {
            Side::Upper => factor,
            Side::Lower => -factor,
        }
    }

    /// The number of this side's inequality, where the upper side's is `number`.
    pub(crate) fn number(self, number: u32) -> u32
        requires { number ≤ 2 ^ 31 }
        ensures { result ≡ side_number self number }
    {
        match self {
            Side::Upper => number,
            Side::Lower => number + 1,
        }
    }
}

/// The first side that no sum of the form within the bounds reaches.
pub(crate) fn side_out_of_reach(
    form: &[i128],
    low: Option<i128>,
    high: Option<i128>,
    bounds: &[Bounds],
) -> Option<Side>
    requires dense { length form.now ≡ length bounds.now }
    requires light { span form.now bounds.now ≤ 2 ^ 96 }
    ensures some { IfSome result (λ side. IsOutOfReach side form.now low high bounds.now) }
    ensures none { IfNone result (ReachesSides form.now low high bounds.now) }
{
    let least = End::Least.sum(form, bounds);
    if high.is_some_and(|side| side < least) {
        return Some(Side::Upper);
    }
    let greatest = End::Greatest.sum(form, bounds);
    if low.is_some_and(|side| greatest < side) {
        return Some(Side::Lower);
    }
    None
}
