//! The exact comparison of multiples of fractions, whose cross products may leave 128 bits.
ghost use Rattle.std.specs.Prelude.{◌≡◌, ◌+◌, ◌*◌, ◌<◌, ◌≤◌, ◌^◌, ◌↔◌, pos, IsTrue};
ghost use Rattle.std.specs.Bool.{OnFalse, OnTrue};
ghost use Rattle.exact_math.specs.Rational.{whole, ◌*ℚ◌, ◌≤ℚ◌, ◌<ℚ◌};
ghost use Rattle.generalised_reduce.specs.DifferenceLaws.{none};

use frac128::Frac;

// A digit of a large number is below this.
const BASE: u128 = 1 << 127;

// A quotient and what remains.
#[derive(Clone, Copy, Debug)]
struct Quotient {
    whole: u128,
    rest: u128,
}

// The double of a quotient.
fn doubled(half: Quotient, divisor: u128) -> Quotient
    requires whole { half.whole < 2 ^ 126 }
    requires rest { half.rest < divisor }
    requires narrow { divisor ≤ 2 ^ 127 }
    ensures value { result.whole * divisor + result.rest ≡ 2 * (half.whole * divisor + half.rest) }
    ensures rest { result.rest < divisor }
    ensures whole { result.whole ≤ 2 * half.whole + 1 }
{
    let rest = half.rest + half.rest;
    if rest < divisor {
        return Quotient {
            whole: 2 * half.whole,
            rest,
        };
    }
    Quotient {
        whole: 2 * half.whole + 1,
        rest: rest - divisor,
    }
}

// A quotient with a number added that is below the divisor.
fn increased(quotient: Quotient, number: u128, divisor: u128) -> Quotient
    requires whole { quotient.whole < 2 ^ 127 }
    requires rest { quotient.rest < divisor }
    requires number { number < divisor }
    requires narrow { divisor ≤ 2 ^ 127 }
    ensures value { result.whole * divisor + result.rest ≡ (quotient.whole * divisor + quotient.rest) + number }
    ensures rest { result.rest < divisor }
{
    let rest = quotient.rest + number;
    if rest < divisor {
        return Quotient {
            whole: quotient.whole,
            rest,
        };
    }
    Quotient {
        whole: quotient.whole + 1,
        rest: rest - divisor,
    }
}

// A product divided by a number that is above its second factor.
fn divided_product(times: u128, number: u128, divisor: u128) -> Quotient
    requires times { times < 2 ^ 127 }
    requires number { number < divisor }
    requires narrow { divisor ≤ 2 ^ 127 }
    ensures value { result.whole * divisor + result.rest ≡ times * number }
    ensures rest { result.rest < divisor }
    ensures whole { result.whole ≤ times }
{
    if times == 0 {
        return Quotient { whole: 0, rest: 0 };
    }
    let double = doubled(divided_product(times / 2, number, divisor), divisor);
    if times % 2 == 0 {
        return double;
    }
    increased(double, number, divisor)
}

// A multiple of a fraction: a whole number in two digits, and what remains over the denominator.
#[derive(Clone, Copy, Debug)]
struct Multiple {
    high: u128,
    low: u128,
    rest: u128,
}

// `times` times a fraction.
fn multiple_of(times: u128, size: u128, divisor: u128) -> Multiple
    requires times { times < 2 ^ 127 }
    requires size { size < 2 ^ 127 }
    requires some { 0 < divisor }
    requires narrow { divisor < 2 ^ 127 }
    ensures value { (result.high * 2 ^ 127 + result.low) * divisor + result.rest ≡ times * size }
    ensures low { result.low < 2 ^ 127 }
    ensures rest { result.rest < divisor }
{
    let below = divided_product(times, size % divisor, divisor);
    let above = divided_product(times, size / divisor, BASE);
    let low = above.rest + below.whole;
    Multiple {
        high: above.whole + low / BASE,
        low: low % BASE,
        rest: below.rest,
    }
}

// Whether a product is below another.
fn is_product_below(a: u128, b: u128, c: u128, d: u128) -> bool
    requires a { a < 2 ^ 127 }
    requires b { b < 2 ^ 127 }
    requires c { c < 2 ^ 127 }
    requires d { d < 2 ^ 127 }
    ensures { IsTrue result ↔ (a * b < c * d) }
{
    let left = divided_product(a, b, BASE);
    let right = divided_product(c, d, BASE);
    if left.whole != right.whole {
        return left.whole < right.whole;
    }
    left.rest < right.rest
}

// Whether a multiple of a fraction is below another, by their parts.
fn is_part_below(left: Multiple, left_divisor: u128, right: Multiple, right_divisor: u128) -> bool
    requires left_low { left.low < 2 ^ 127 }
    requires right_low { right.low < 2 ^ 127 }
    requires left_rest { left.rest < left_divisor }
    requires right_rest { right.rest < right_divisor }
    requires left_divisor { left_divisor < 2 ^ 127 }
    requires right_divisor { right_divisor < 2 ^ 127 }
    ensures { IsTrue result ↔ (((left.high * 2 ^ 127 + left.low) * left_divisor + left.rest) * right_divisor < ((right.high * 2 ^ 127 + right.low) * right_divisor + right.rest) * left_divisor) }
{
    if left.high != right.high {
        return left.high < right.high;
    }
    if left.low != right.low {
        return left.low < right.low;
    }
    is_product_below(left.rest, right_divisor, right.rest, left_divisor)
}

/// Whether `times` times a number that is not negative is below `other_times` times another.
pub(crate) fn is_multiple_below(times: u128, number: Frac, other_times: u128, other: Frac) -> bool
    requires times { times < 2 ^ 127 }
    requires other_times { other_times < 2 ^ 127 }
    requires number { none ≤ℚ number }
    requires other { none ≤ℚ other }
    ensures yes { OnTrue result ((whole (pos times) *ℚ number) <ℚ (whole (pos other_times) *ℚ other)) }
    ensures no { OnFalse result ((whole (pos other_times) *ℚ other) ≤ℚ (whole (pos times) *ℚ number)) }
{
    let divisor = number.den() as u128;
    let other_divisor = other.den() as u128;
    let left = multiple_of(times, number.num().unsigned_abs(), divisor);
    let right = multiple_of(other_times, other.num().unsigned_abs(), other_divisor);
    is_part_below(left, divisor, right, other_divisor)
}
