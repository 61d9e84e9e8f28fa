//! The tests in whole numbers of the two conditions on a reduced basis.
ghost use Rattle.std.specs.Prelude.{◌≡◌, ◌↔◌, ◌*◌, ◌≤◌, ℤ, pos, ◌+ℤ◌, ◌*ℤ◌, ◌≤ℤ◌, ◌<ℤ◌, nat_abs, IfSome, IsTrue, MatchOption, SomeIff};
ghost use Rattle.lattice_reduce.specs.Numbers.{FactorLeaves, LeftStays, RightStays, TestStays};

use crate::division::{digits_of, next_beyond};

/// Whether 2 |l| is at most d.
pub(crate) fn is_small(l: i128, d: i128) -> bool
    ensures { IsTrue result ↔ (2 * nat_abs l ≤ nat_abs d) }
{
    l.unsigned_abs() <= d.unsigned_abs() / 2
}

/// Minus a whole number that is nearest to l/d, if `i128` has it.
pub(crate) fn minus_nearest(l: i128, d: i128) -> Option<i128>
    requires { pos 0 <ℤ d }
    ensures { MatchOption result (FactorLeaves l d) (λ f. 2 * nat_abs (l +ℤ f *ℤ d) ≤ nat_abs d) }
{
    let quotient = l.div_euclid(d);
    let rest = l.rem_euclid(d);
    if d - rest < rest {
        Some(-1 - quotient)
    } else {
        quotient.checked_neg()
    }
}

// 4 (f d + l²)
fn left_side(d: i128, f: i128, l: i128) -> Option<i128>
    ensures { SomeIff result (LeftStays d f l) (pos 4 *ℤ (f *ℤ d +ℤ l *ℤ l)) }
{
    let product = f.checked_mul(d)?;
    let square = l.checked_mul(l)?;
    let sum = product.checked_add(square)?;
    sum.checked_mul(4)
}

// 3 e²
fn right_side(e: i128) -> Option<i128>
    ensures { SomeIff result (RightStays e) (pos 3 *ℤ (e *ℤ e)) }
{
    let square = e.checked_mul(e)?;
    square.checked_mul(3)
}

/// Whether 3 e² is at most 4 (f d + l²). `None` comes exactly where one of the numbers leaves `i128`.
pub(crate) fn is_in_order(d: i128, e: i128, f: i128, l: i128) -> Option<bool>
    ensures { MatchOption result (¬ (TestStays d e f l)) (λ v. TestStays d e f l × (IsTrue v ↔ (pos 3 *ℤ (e *ℤ e)) ≤ℤ (pos 4 *ℤ (f *ℤ d +ℤ l *ℤ l)))) }
{
    let left = left_side(d, f, l)?;
    let right = right_side(e)?;
    Some(right <= left)
}

/// Whether 3 e is at most 4 times the quotient (f d + l²) / e, where products leave `i128`. The square of the quotient is at most
/// that of d times the square of `square`.
pub(crate) fn is_in_order_beyond(d: i128, e: i128, f: i128, l: i128, square: i128) -> Option<bool>
    requires { pos 0 <ℤ e }
    ensures { IfSome result (λ v. (q : ℤ) → e *ℤ q ≡ f *ℤ d +ℤ l *ℤ l → (q *ℤ q) ≤ℤ ((d *ℤ d) *ℤ (square *ℤ square)) → IsTrue v ↔ (pos 3 *ℤ (e *ℤ e)) ≤ℤ (pos 4 *ℤ (f *ℤ d +ℤ l *ℤ l))) }
{
    let size = digits_of(square);
    let opposite = l.checked_neg()?;
    let quotient = next_beyond(d, e, f, l, opposite, size + size)?;
    let left = e.checked_mul(3)?;
    let right = quotient.checked_mul(4)?;
    Some(left <= right)
}
