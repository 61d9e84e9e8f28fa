//! The parts of the test whether a list of values is a point.
ghost use Rattle.std.specs.Prelude.{◌≡◌, ◌^◌, ◌≤◌, ◌↔◌, length, IsTrue};
ghost use Rattle.exact_math.specs.Ring.{integers};
ghost use Rattle.exact_vectors.specs.Vectors.{dot};
ghost use Rattle.whole_rows.specs.WholeRows.{IsWithin, LiesIn, size_sum};

use crate::bounds::Bounds;

/// Whether there are as many values as bounds, each between its own.
pub(crate) fn lies_in(bounds: &[Bounds], x: &[i128]) -> bool
    ensures { IsTrue result ↔ LiesIn bounds.now x.now }
{
    if bounds.len() != x.len() {
        return false;
    }
    for i in 0..x.len() {
        let Bounds { low, high } = bounds[i];
        if x[i] < low || high < x[i] {
            return false;
        }
    }
    true
}

/// Whether a value lies between two sides, of which each may be absent.
pub(crate) fn is_within(low: Option<i128>, high: Option<i128>, value: i128) -> bool
    ensures { IsTrue result ↔ IsWithin low high value }
{
    low.is_none_or(|side| side <= value) && high.is_none_or(|side| value <= side)
}

/// The sum of the products of the numbers at one place.
pub(crate) fn dot_product(factors: &[i128], x: &[i128]) -> i128
    requires same_length { length factors.now ≡ length x.now }
    requires small { size_sum factors.now x.now ≤ 2 ^ 96 }
    ensures { result ≡ dot integers factors.now x.now }
{
    let mut sum = 0;
    for i in 0..x.len() {
        sum += factors[i] * x[i];
    }
    sum
}
