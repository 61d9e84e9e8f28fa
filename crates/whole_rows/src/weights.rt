//! Weights: sums of sizes, as far as they stay at most 2 to the power 96.
ghost use Rattle.std.specs.Prelude.{◌≡◌, ◌+◌, ◌*◌, ◌^◌, ◌≤◌, length, nat_abs, All, IfNone, IfSome, SomeIff};
ghost use Rattle.whole_rows.specs.WholeRows.{reach, span, size_of_side, IsFirstHeavy};

use crate::bounds::Bounds;

/// The greatest weight that a column, a row or a cost may have.
pub const HEAVIEST: u128 = 1 << 96;

/// The sum and one more term, the size of `factor` times `times`; none where that is too heavy.
pub fn with_term(sum: u128, factor: i128, times: u128) -> Option<u128>
    ensures { SomeIff result (sum + nat_abs factor * times ≤ 2 ^ 96) (sum + nat_abs factor * times) }
{
    let term = factor.unsigned_abs().checked_mul(times)?;
    let total = sum.checked_add(term)?;
    if total > HEAVIEST {
        return None;
    }
    Some(total)
}

/// The sum and the size of a side that may be absent; none where that is too heavy.
pub(crate) fn with_side(sum: u128, side: Option<i128>) -> Option<u128>
    requires { sum ≤ 2 ^ 96 }
    ensures { SomeIff result (sum + size_of_side side ≤ 2 ^ 96) (sum + size_of_side side) }
{
    match side {
        None => Some(sum),
        Some(side) => with_term(sum, side, 1),
    }
}

/// The sum of each factor's size times the reach of its column; none where that is too heavy.
pub fn span_of(factors: &[i128], columns: &[Bounds]) -> Option<u128>
    requires { length factors.now ≡ length columns.now }
    ensures { SomeIff result (span factors.now columns.now ≤ 2 ^ 96) (span factors.now columns.now) }
{
    let mut sum = 0;
    for j in 0..columns.len() {
        sum = with_term(sum, factors[j], columns[j].reach())?;
    }
    Some(sum)
}

/// The weight of a row; none where it is too heavy.
pub(crate) fn weight_of(
    factors: &[i128],
    low: Option<i128>,
    high: Option<i128>,
    columns: &[Bounds],
) -> Option<u128>
    requires { length factors.now ≡ length columns.now }
    ensures { SomeIff result (span factors.now columns.now + size_of_side low + size_of_side high ≤ 2 ^ 96) (span factors.now columns.now + size_of_side low + size_of_side high) }
{
    let sum = span_of(factors, columns)?;
    let sum = with_side(sum, low)?;
    with_side(sum, high)
}

/// The number of the first column that is too heavy, if there is one.
pub(crate) fn first_heavy(columns: &[Bounds]) -> Option<usize>
    ensures found { IfSome result (IsFirstHeavy columns.now) }
    ensures none { IfNone result (All (λ bounds. reach bounds ≤ 2 ^ 96) columns.now) }
{
    for j in 0..columns.len() {
        if columns[j].reach() > HEAVIEST {
            return Some(j);
        }
    }
    None
}
