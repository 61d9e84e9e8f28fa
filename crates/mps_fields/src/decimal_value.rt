//! The value of digits with a power of ten, in the range of `Frac`.
ghost use Rattle.std.specs.Prelude.{◌≡◌, ◌≢◌, ◌+◌, ◌-◌, ◌*◌, ◌^◌, ◌<◌, ◌≤◌, ◌++◌, length, SomeIff, IsTrue, pos, ◌*ℤ◌};
ghost use Rattle.exact_math.specs.Rational.{frac, whole};
ghost use Rattle.frac128.specs.Sign.{with_sign};
ghost use Rattle.mps_fields.specs.Decimal.{is_digit, digits_value, fits_product, scaled};
ghost use Rattle.mps_fields.specs.DecimalParts.{AllDigits, HasDigits, PartsFit, parts_value, whole_of};

use crate::decimal_parts::Parts;
use frac128::Frac;

// One more than the greatest size of the numbers of a `Frac`.
const LIMIT: u128 = 1 << 127;

// A number of at most this size and one more digit fit 64 bits.
const SHORT: u128 = 1_000_000_000_000_000_000;

// The greatest power of ten below the limit.
const MOST_ZEROS: u128 = 38;

fn with_digit(value: u128, digit: u8) -> Option<u128>
    requires { IsTrue (is_digit digit) }
    ensures { let next = 10 * value + (digit - 48) in SomeIff result (next < 2 ^ 127) next }
{
    let digit = digit - b'0';
    if value <= SHORT {
        return Some(u128::from(value as u64 * 10 + u64::from(digit)));
    }
    let value = value.checked_mul(10)?.checked_add(u128::from(digit))?;
    if value < LIMIT { Some(value) } else { None }
}

// The number whose digits are those of another number and then these.
#[tactic(auto, using(crate::proofs::DigitLaws::continued_more, crate::proofs::DigitLaws::continued_all, crate::proofs::DigitLaws::continued_wide))]
fn continued(number: u128, digits: &[u8]) -> Option<u128>
    requires small { number < 2 ^ 127 }
    requires digits { AllDigits digits.now }
    ensures { let whole = whole_of number digits.now in SomeIff result (whole < 2 ^ 127) whole }
{
    let mut value = number;
    for digit in digits {
        value = with_digit(value, *digit)?;
    }
    Some(value)
}

#[tactic(auto, using(crate::proofs::DigitLaws::joined_is, crate::proofs::DigitLaws::joined_wide))]
fn joined(whole: &[u8], fraction: &[u8]) -> Option<u128>
    requires whole { AllDigits whole.now }
    requires fraction { AllDigits fraction.now }
    ensures { let number = digits_value (whole.now ++ fraction.now) in
        SomeIff result (number < 2 ^ 127) number }
{
    let number = continued(0, whole)?;
    continued(number, fraction)
}

fn signed(is_negative: bool, size: u128) -> i128
    requires { size < 2 ^ 127 }
    ensures { result ≡ with_sign is_negative size }
{
    let number = size as i128;
    if is_negative { -number } else { number }
}

#[tactic(auto, using(crate::proofs::DigitLaws::power_small, crate::proofs::DigitLaws::power_pos))]
fn power_of_ten(zeros: u128) -> u128
    requires { zeros ≤ 38 }
    ensures value { result ≡ 10 ^ zeros }
    ensures positive { 0 < result }
    ensures small { result < 2 ^ 127 }
{
    10u128.pow(zeros as u32)
}

// Both numbers are in range, and so are the lowest terms.
fn fraction(is_negative: bool, size: u128, divisor: u128) -> Frac
    requires size { size < 2 ^ 127 }
    requires positive { 0 < divisor }
    requires divisor { divisor < 2 ^ 127 }
    ensures { result ≡ frac (with_sign is_negative size) divisor }
{
    Frac::new(signed(is_negative, size), divisor as i128).unwrap()
}

// A number with zeros behind it.
#[tactic(auto, using(crate::proofs::DigitLaws::power_large))]
fn raised(is_negative: bool, size: u128, zeros: u128) -> Option<Frac>
    requires { 0 < size }
    ensures { let product = size * 10 ^ zeros in
        SomeIff result (product < 2 ^ 127) (whole (with_sign is_negative product)) }
{
    if zeros > MOST_ZEROS {
        return None;
    }
    let size = size.checked_mul(power_of_ten(zeros))?;
    if size >= LIMIT {
        return None;
    }
    Some(Frac::whole(signed(is_negative, size)))
}

// A number with so many digits after the point.
fn lowered(is_negative: bool, size: u128, places: u128) -> Option<Frac>
    requires { size < 2 ^ 127 }
    ensures { SomeIff result (places ≤ 38) (frac (with_sign is_negative size) (10 ^ places)) }
{
    if places > MOST_ZEROS {
        return None;
    }
    Some(fraction(is_negative, size, power_of_ten(places)))
}

/// The number with these parts, where it fits.
#[tactic(auto, using(crate::proofs::PowerOfTenLaws::large_mantissa, crate::proofs::PowerOfTenLaws::zero_fits, crate::proofs::PowerOfTenLaws::large_power, crate::proofs::PowerOfTenLaws::down, crate::proofs::PowerOfTenLaws::negative_power, crate::proofs::PowerOfTenLaws::scales_same))]
pub(crate) fn value(parts: &Parts) -> Option<Frac>
    requires { HasDigits parts.now }
    ensures { SomeIff result (PartsFit parts.now) (parts_value parts.now) }
{
    let size = joined(parts.whole, parts.fraction)?;
    if size == 0 {
        return lowered(false, 0, 0);
    }
    let places = parts.fraction.len() as u128;
    let power = continued(0, parts.power.digits)?;
    if parts.power.is_negative {
        lowered(parts.is_negative, size, power + places)
    } else if power < places {
        lowered(parts.is_negative, size, places - power)
    } else {
        raised(parts.is_negative, size, power - places)
    }
}
