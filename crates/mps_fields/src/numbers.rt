//! Decimal numbers.
ghost use Rattle.std.specs.Prelude.{◌≡◌, ◌↔◌, Ok, Err};
ghost use Rattle.exact_math.specs.Rational.{ℚ};
ghost use Rattle.mps_fields.specs.Decimal.{IsNumber, MeansNumber, IsWideNumber};
ghost use Rattle.mps_fields.specs.Reading.{number_of};

use crate::decimal_parts::cut_parts;
use crate::decimal_value::value;
use frac128::Frac;

/// Why a field has no value as a number.
#[derive(Clone, Copy, Debug, PartialEq, Eq)]
pub enum NumberFault {
    /// The text is not written as a number.
    NotNumber,
    /// The number does not fit as it is written: its digits, or the power of ten beside them, are too many for 128 bits.
    WideNumber,
}

/// The exact value of a decimal number: an optional sign, digits with at most one point, and optionally one of
/// `e`, `E`, `d`, `D` with a power of ten. Digits and exponents of any length are read; no memory is taken.
///
/// `NotNumber` exactly where the text is not written so. Of a number, let M be the whole number of all digits before the
/// exponent and e the exponent less the number of digits behind the point: `WideNumber` exactly where M is not 0 and
/// M * 10^e is above 2^127 - 1 in size for e of at least 0, or M is so for e below 0, or -e is above 38.
pub fn number(text: &[u8]) -> Result<Frac, NumberFault>
    ensures value { result ≡ number_of text.now }
    ensures ok { (q : ℚ) → (result ≡ Ok q) ↔ MeansNumber text.now q }
    ensures not_number { (result ≡ Err NumberFault.NotNumber) ↔ (¬ IsNumber text.now) }
    ensures wide { (result ≡ Err NumberFault.WideNumber) ↔ IsWideNumber text.now }
{
    let Some(parts) = cut_parts(text) else {
        return Err(NumberFault::NotNumber);
    };
    match value(&parts) {
        Some(number) => Ok(number),
        None => Err(NumberFault::WideNumber),
    }
}
