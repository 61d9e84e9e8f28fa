//! Whole numbers of at most 2^127 - 1 in size.
ghost use Rattle.std.specs.Prelude.{◌≡◌, ◌^◌, ◌<◌, ◌*◌, ◌/◌, pos, nat_abs, ◌+ℤ◌, ◌*ℤ◌, OkIff};
ghost use Rattle.frac128.specs.Range.{IsNarrow};
ghost use Rattle.frac128.specs.Sign.{with_sign};

/// The result leaves the range of `Frac`, or for `add` and `sub` one of the four numbers on the way to it does.
#[derive(Clone, Copy, Debug, PartialEq, Eq)]
pub struct Wide;

// One more than the greatest size.
pub(crate) const LIMIT: u128 = 1 << 127;

// One more than the greatest number of 63 bits.
pub(crate) const WORD_LIMIT: u128 = 1 << 63;

// The greatest number of 64 bits.
const WORD_MOST: u128 = 18446744073709551615;

pub(crate) fn signed(negative: bool, size: u128) -> i128
    requires { size < 2 ^ 127 }
    ensures { result ≡ with_sign negative size }
{
    let number = size as i128;
    if negative { -number } else { number }
}

pub(crate) fn product(x: u128, y: u128) -> Result<u128, Wide>
    ensures { OkIff result (x * y < 2 ^ 127) (x * y) }
{
    match x.checked_mul(y) {
        Some(z) if z < LIMIT => Ok(z),
        _ => Err(Wide),
    }
}

// A quotient; most greatest common divisors are 1, and a division of 64-bit numbers costs far less than one of 128-bit ones.
pub(crate) fn quotient(x: u128, by: u128) -> u128
    requires { 0 < by }
    ensures { result ≡ x / by }
{
    if by == 1 {
        return x;
    }
    if x <= WORD_MOST && by <= WORD_MOST {
        return u128::from(x as u64 / by as u64);
    }
    x / by
}

// A number times a factor without a sign.
pub(crate) fn multiple(number: i128, factor: u128) -> Result<i128, Wide>
    requires { IsNarrow number }
    ensures { OkIff result (IsNarrow (number *ℤ pos factor)) (number *ℤ pos factor) }
{
    let size = product(number.unsigned_abs(), factor)?;
    Ok(signed(number < 0, size))
}

pub(crate) fn sum(x: i128, y: i128) -> Result<i128, Wide>
    ensures { OkIff result (IsNarrow (x +ℤ y)) (x +ℤ y) }
{
    match x.checked_add(y) {
        Some(z) if z != i128::MIN => Ok(z),
        _ => Err(Wide),
    }
}

// A number times a factor, both of 63 bits.
pub(crate) fn word_multiple(number: i128, factor: u64) -> i128
    requires number_word { nat_abs number < 2 ^ 63 }
    requires factor_word { factor < 2 ^ 63 }
    ensures value { result ≡ number *ℤ pos factor }
    ensures small { nat_abs result < 2 ^ 126 }
{
    number * i128::from(factor)
}
