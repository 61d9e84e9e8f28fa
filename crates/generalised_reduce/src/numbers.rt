//! The numbers of the tests on two neighbouring widths.
ghost use Rattle.std.specs.Prelude.{◌≡◌, ◌+◌, ◌<◌, ◌^◌, ◌⊎◌, pos, nat_abs, ◌-ℤ◌, ◌≤ℤ◌, length};
ghost use Rattle.std.specs.Bool.{OnTrue, OnFalse};
ghost use Rattle.exact_math.specs.Rational.{whole, ◌+ℚ◌, ◌*ℚ◌, ◌≤ℚ◌, ◌<ℚ◌};
ghost use Rattle.exact_math.specs.RationalRing.{rationals};
ghost use Rattle.exact_vectors.specs.Inequalities.{NotNegativeBy};
ghost use Rattle.generalised_reduce.specs.DifferenceLaws.{none};
ghost use Rattle.generalised_reduce.specs.MultiplierLaws.{fraction_at};

use crate::products::is_multiple_below;
use frac128::Frac;

/// Two whole numbers between which a fraction lies.
#[derive(Clone, Copy, Debug)]
pub(crate) struct Span {
    pub(crate) low: i128,
    pub(crate) high: i128,
}

// The difference of two numbers that are not negative.
fn difference_of(a: i128, b: i128) -> i128
    requires first { pos 0 ≤ℤ a }
    requires second { pos 0 ≤ℤ b }
    ensures value { result ≡ a -ℤ b }
    ensures narrow { nat_abs result < 2 ^ 127 }
{
    a - b
}

/// The whole numbers round what the multipliers at two places differ by: the second less the first.
pub(crate) fn span_at(weights: &[Frac], place: usize) -> Span
    requires inside { place + 1 < length weights.now }
    requires not_negative { NotNegativeBy rationals ◌≤ℚ◌ weights.now }
    ensures low { whole result.low ≤ℚ fraction_at weights.now place }
    ensures high { fraction_at weights.now place ≤ℚ whole result.high }
    ensures order { result.low ≤ℤ result.high }
    ensures low_narrow { nat_abs result.low < 2 ^ 127 }
    ensures high_narrow { nat_abs result.high < 2 ^ 127 }
{
    let more = weights[place];
    let less = weights[place + 1];
    Span {
        low: difference_of(less.floor(), more.ceil()),
        high: difference_of(less.ceil(), more.floor()),
    }
}

/// Whether a multiple of a row may make the next row less wide: it is one, the row has a width, and the multiple's is at most
/// twice that of the next.
pub(crate) fn may_improve(factor: i128, before: Frac, width: Frac) -> bool
    requires narrow { nat_abs factor < 2 ^ 127 }
    requires before { none ≤ℚ before }
    requires width { none ≤ℚ width }
    ensures yes { OnTrue result ((none <ℚ before) × ((whole (pos (nat_abs factor)) *ℚ before) ≤ℚ (width +ℚ width))) }
    ensures no { OnFalse result ((factor ≡ pos 0) ⊎ ((before ≤ℚ none) ⊎ ((width +ℚ width) ≤ℚ (whole (pos (nat_abs factor)) *ℚ before)))) }
{
    if factor == 0 {
        return false;
    }
    if before.num() <= 0 {
        return false;
    }
    let far = is_multiple_below(2, width, factor.unsigned_abs(), before);
    !far
}

/// Whether a width is below 3/4 of another.
pub(crate) fn is_thinner(width: Frac, before: Frac) -> bool
    requires width { none ≤ℚ width }
    requires before { none ≤ℚ before }
    ensures yes { OnTrue result ((whole (pos 4) *ℚ width) <ℚ (whole (pos 3) *ℚ before)) }
    ensures no { OnFalse result ((whole (pos 3) *ℚ before) ≤ℚ (whole (pos 4) *ℚ width)) }
{
    is_multiple_below(4, width, 3, before)
}
