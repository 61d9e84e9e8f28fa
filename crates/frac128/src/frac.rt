//! The type `Frac`.
ghost use Rattle.std.specs.Prelude.{◌≡◌, ◌≢◌, ◌^◌, ◌<◌, ◌↔◌, pos, nat_abs, OkIff, IsTrue, int_lt};
ghost use Rattle.exact_math.specs.Gcd.{gcd as gcd_of};
ghost use Rattle.exact_math.specs.Rational.{whole, frac, ratio, ◌+ℚ◌, ◌-ℚ◌, ◌*ℚ◌, ◌/ℚ◌, neg_ℚ, inv_ℚ, floor, ceil, IsWhole};
ghost use Rattle.frac128.specs.Range.{InRange, SumInRange, ProductInRange, IsReduced, IsNarrow, IsWord};

use crate::euclid::{gcd_of_sizes, gcd_of_words};
use crate::narrow::{
    LIMIT, WORD_LIMIT, Wide, multiple, product, quotient, signed, sum, word_multiple,
};
use std::marker::Model;

/// A fraction in lowest terms, both of whose numbers are at most 2^127 - 1 in size. Contracts see it as a rational number.
#[derive(Clone, Copy, Debug)]
pub struct Frac {
    num: i128,
    den: u128,
}

impl Model for Frac {
    ghost use Rattle.std.proofs.Common.{ap₂};
    ghost use Rattle.exact_math.specs.Rational.{ℚ, frac};
    ghost use Rattle.exact_math.specs.RationalCode.{rational_code, frac-lowest};
    ghost use Rattle.frac128.specs.Range.{IsReduced};

    ghost Value = { ℚ };

    ghost coded = { rational_code };

    ghost view = { λ s. frac s.num s.den };

    ghost invariant = { λ s. IsReduced s.num s.den };

    ghost inverse = { λ q. record { num = q.num; den = q.den } };

    ghost inverse_ok = { λ a h. let t = frac-lowest a.num a.den h.positive h.lowest in ap₂ (λ n d. record { num = n; den = d }) t.0 t.1 };
}

impl Frac {
    /// num/den in lowest terms; the sign of `den` goes to the numerator. `Wide` exactly where a lowest term is above
    /// 2^127 - 1 in size.
    pub fn new(num: i128, den: i128) -> Result<Frac, Wide>
        requires { den ≢ pos 0 }
        ensures { OkIff result (InRange (ratio num den)) (ratio num den) }
    {
        let size = num.unsigned_abs();
        let divisor = den.unsigned_abs();
        let common = gcd_of_sizes(size, divisor);
        let size = quotient(size, common);
        let divisor = quotient(divisor, common);
        if size >= LIMIT || divisor >= LIMIT {
            return Err(Wide);
        }
        Ok(Frac::of_terms(signed((num < 0) != (den < 0), size), divisor))
    }

    /// A whole number as a fraction.
    pub fn whole(value: i128) -> Frac
        requires { nat_abs value < 2 ^ 127 }
        ensures { result ≡ whole value }
    {
        Frac::of_terms(value, 1)
    }

    /// The numerator, which has the fraction's sign.
    pub fn num(&self) -> i128
        ensures value { result ≡ self.now.num }
        ensures narrow { nat_abs self.now.num < 2 ^ 127 }
    {
        self.num
    }

    /// The denominator, which is above 0.
    pub fn den(&self) -> i128
        ensures value { result ≡ pos self.now.den }
        ensures positive { 0 < self.now.den }
        ensures narrow { self.now.den < 2 ^ 127 }
    {
        self.den as i128
    }

    // The denominator as a size.
    pub(crate) fn divisor(&self) -> u128
        ensures value { result ≡ self.now.den }
        ensures positive { 0 < result }
        ensures narrow { result < 2 ^ 127 }
    {
        self.den
    }

    // The size of the numerator.
    pub(crate) fn size(&self) -> u128
        ensures value { result ≡ nat_abs self.now.num }
        ensures narrow { result < 2 ^ 127 }
    {
        self.num.unsigned_abs()
    }

    // Whether the fraction is below 0.
    pub(crate) fn is_negative(&self) -> bool
        ensures { result ≡ int_lt self.now.num (pos 0) }
    {
        self.num < 0
    }

    // Whether both numbers have at most 63 bits.
    pub(crate) fn is_word(&self) -> bool
        ensures { IsTrue result ↔ IsWord self.now }
    {
        self.size() < WORD_LIMIT && self.divisor() < WORD_LIMIT
    }

    // The fraction with these terms.
    fn of_terms(num: i128, den: u128) -> Frac
        requires { IsReduced num den }
        ensures value { result ≡ frac num den }
        ensures num { result.num ≡ num }
        ensures den { result.den ≡ den }
    {
        Frac { num, den }
    }

    // The fraction num/den, where `common` has each divisor that the two terms have in common.
    fn reduced(num: i128, den: u128, common: u128) -> Frac
        requires positive { 0 < den }
        requires num_narrow { IsNarrow num }
        requires den_narrow { den < 2 ^ 127 }
        requires common_divisors { gcd_of (nat_abs num) den ≡ gcd_of (nat_abs num) common }
        ensures { result ≡ frac num den }
    {
        let size = num.unsigned_abs();
        let again = gcd_of_sizes(size, common);
        if again == 1 {
            return Frac::of_terms(num, den);
        }
        Frac::of_terms(signed(num < 0, quotient(size, again)), quotient(den, again))
    }

    /// The sum; `Wide` where a product or sum on the way to it is too large, as `SumInRange` says.
    pub fn add(&self, other: &Frac) -> Result<Frac, Wide>
        ensures { OkIff result (SumInRange self.now other.now) (self.now +ℚ other.now) }
    {
        if self.is_integer() && other.is_integer() {
            return self.add_whole(other);
        }
        if self.is_word() && other.is_word() {
            return Ok(self.add_words(other));
        }
        self.add_long(other)
    }

    // The sum of whole numbers.
    fn add_whole(&self, other: &Frac) -> Result<Frac, Wide>
        requires left { IsWhole self.now }
        requires right { IsWhole other.now }
        ensures { OkIff result (SumInRange self.now other.now) (self.now +ℚ other.now) }
    {
        let num = sum(self.num(), other.num())?;
        Ok(Frac::of_terms(num, 1))
    }

    // The sum of fractions of 63-bit numbers, whose products fit.
    fn add_words(&self, other: &Frac) -> Frac
        requires left { IsWord self.now }
        requires right { IsWord other.now }
        ensures in_range { SumInRange self.now other.now }
        ensures value { result ≡ self.now +ℚ other.now }
    {
        let left_den = self.divisor() as u64;
        let right_den = other.divisor() as u64;
        let common = gcd_of_words(left_den, right_den);
        let left = left_den / common;
        let right = right_den / common;
        let num = word_multiple(self.num(), right) + word_multiple(other.num(), left);
        let den = u128::from(left) * u128::from(right_den);
        Frac::reduced(num, den, u128::from(common))
    }

    fn add_long(&self, other: &Frac) -> Result<Frac, Wide>
        ensures { OkIff result (SumInRange self.now other.now) (self.now +ℚ other.now) }
    {
        let left_den = self.divisor();
        let right_den = other.divisor();
        let common = gcd_of_sizes(left_den, right_den);
        let left = quotient(left_den, common);
        let right = quotient(right_den, common);
        let first = multiple(self.num(), right)?;
        let second = multiple(other.num(), left)?;
        let num = sum(first, second)?;
        let den = product(left, right_den)?;
        Ok(Frac::reduced(num, den, common))
    }

    /// The difference, that is the sum with the negated number; `Wide` as of that sum.
    pub fn sub(&self, other: &Frac) -> Result<Frac, Wide>
        ensures { OkIff result (SumInRange self.now (neg_ℚ other.now)) (self.now -ℚ other.now) }
    {
        self.add(&other.neg())
    }

    /// The product. Common factors are divided out first, so that `Wide` depends on the result alone.
    pub fn mul(&self, other: &Frac) -> Result<Frac, Wide>
        ensures { OkIff result (ProductInRange self.now other.now) (self.now *ℚ other.now) }
    {
        if self.is_integer() && other.is_integer() {
            return self.mul_whole(other);
        }
        if self.is_word() && other.is_word() {
            return Ok(self.mul_words(other));
        }
        self.mul_long(other)
    }

    // The product of whole numbers.
    fn mul_whole(&self, other: &Frac) -> Result<Frac, Wide>
        requires left { IsWhole self.now }
        requires right { IsWhole other.now }
        ensures { OkIff result (ProductInRange self.now other.now) (self.now *ℚ other.now) }
    {
        let size = product(self.size(), other.size())?;
        let negative = self.is_negative() != other.is_negative();
        Ok(Frac::of_terms(signed(negative, size), 1))
    }

    // The product of fractions of 63-bit numbers, which fits.
    fn mul_words(&self, other: &Frac) -> Frac
        requires left { IsWord self.now }
        requires right { IsWord other.now }
        ensures in_range { ProductInRange self.now other.now }
        ensures value { result ≡ self.now *ℚ other.now }
    {
        let left_size = self.size() as u64;
        let left_den = self.divisor() as u64;
        let right_size = other.size() as u64;
        let right_den = other.divisor() as u64;
        let left = gcd_of_words(left_size, right_den);
        let right = gcd_of_words(right_size, left_den);
        let size = u128::from(left_size / left) * u128::from(right_size / right);
        let den = u128::from(left_den / right) * u128::from(right_den / left);
        let negative = self.is_negative() != other.is_negative();
        Frac::of_terms(signed(negative, size), den)
    }

    fn mul_long(&self, other: &Frac) -> Result<Frac, Wide>
        ensures { OkIff result (ProductInRange self.now other.now) (self.now *ℚ other.now) }
    {
        let left_size = self.size();
        let left_den = self.divisor();
        let right_size = other.size();
        let right_den = other.divisor();
        let left = gcd_of_sizes(left_size, right_den);
        let right = gcd_of_sizes(right_size, left_den);
        let size = product(quotient(left_size, left), quotient(right_size, right))?;
        let den = product(quotient(left_den, right), quotient(right_den, left))?;
        let negative = self.is_negative() != other.is_negative();
        Ok(Frac::of_terms(signed(negative, size), den))
    }

    /// The quotient by a fraction that is not 0; `Wide` exactly where the quotient leaves the range.
    pub fn div(&self, other: &Frac) -> Result<Frac, Wide>
        requires { other.now.num ≢ pos 0 }
        ensures { OkIff result (InRange (self.now /ℚ other.now)) (self.now /ℚ other.now) }
    {
        self.mul(&other.inverse())
    }

    // One over the fraction.
    fn inverse(&self) -> Frac
        requires { self.now.num ≢ pos 0 }
        ensures { result ≡ inv_ℚ self.now }
    {
        let num = self.num();
        Frac::of_terms(signed(num < 0, self.divisor()), num.unsigned_abs())
    }

    /// The fraction with its sign changed.
    pub fn neg(&self) -> Frac
        ensures { result ≡ neg_ℚ self.now }
    {
        Frac::of_terms(-self.num(), self.divisor())
    }

    /// The greatest whole number that is at most the fraction.
    pub fn floor(&self) -> i128
        ensures { result ≡ floor self.now }
    {
        self.num().div_euclid(self.den())
    }

    /// The least whole number that is at least the fraction.
    pub fn ceil(&self) -> i128
        ensures { result ≡ ceil self.now }
    {
        -(-self.num()).div_euclid(self.den())
    }

    /// Whether the fraction is a whole number.
    pub fn is_integer(&self) -> bool
        ensures { IsTrue result ↔ IsWhole self.now }
    {
        self.divisor() == 1
    }
}
