//! The number that a row is multiplied by, and its rounded sides.
ghost use Rattle.std.specs.Prelude.{◌≡◌, ◌^◌, ◌<◌, ◌<ℤ◌, pos, nat_abs, SomeIff, IfOk, OnOk, OnErr, IsTrue};
ghost use Rattle.std.specs.Bool.{IsFalse};
ghost use Rattle.std.specs.Option.{option_map};
ghost use Rattle.exact_math.specs.Rational.{whole, ◌*ℚ◌, floor, ceil};
ghost use Rattle.frac128.specs.Range.{ProductInRange};
ghost use Rattle.int_model.specs.Scale.{common_denominator as common_denominator_of, common_numerator as common_numerator_of};
ghost use Rattle.int_model.specs.ItemFactors.{factors_in, row_scale};
ghost use Rattle.int_model.specs.Large.{LeavesRange};

use crate::model::Item;
use frac128::{Frac, Wide, gcd, lcm};

/// The least common multiple of the factors' denominators; none where it is above 2^127 - 1.
fn common_denominator(items: &[Item]) -> Option<i128>
    ensures { SomeIff result (common_denominator_of (factors_in items.now) < 2 ^ 127) (pos (common_denominator_of (factors_in items.now))) }
{
    let mut common = 1;
    for item in items {
        common = lcm(common, item.factor.den())?;
    }
    Some(common)
}

/// The greatest common divisor of the factors' numerators, 0 where all are 0.
fn common_numerator(items: &[Item]) -> i128
    ensures value { result ≡ pos (common_numerator_of (factors_in items.now)) }
    ensures narrow { common_numerator_of (factors_in items.now) < 2 ^ 127 }
{
    let mut common = 0;
    for item in items {
        common = gcd(common, item.factor.num());
    }
    common
}

/// What a row is multiplied by: its scale, which is 1 where all coefficients are 0.
#[derive(Clone, Copy, Debug, Drop)]
pub(crate) struct RowScale {
    pub(crate) times: Frac,
    /// The least common multiple of the coefficients' denominators.
    pub(crate) denominator: i128,
    /// The greatest common divisor of the coefficients' numerators, 0 where all are 0.
    pub(crate) numerator: i128,
    pub(crate) zeros: bool,
}

/// The scale of items; none where their common denominator is above 2^127 - 1.
pub(crate) fn scale_of(items: &[Item]) -> Option<RowScale>
    ensures { SomeIff result (common_denominator_of (factors_in items.now) < 2 ^ 127) (row_scale (factors_in items.now)) }
{
    let denominator = common_denominator(items)?;
    let numerator = common_numerator(items);
    if numerator == 0 {
        return Some(RowScale {
            times: Frac::whole(1),
            denominator,
            numerator,
            zeros: true,
        });
    }
    Some(RowScale {
        times: Frac::new(denominator, numerator).unwrap(),
        denominator,
        numerator,
        zeros: false,
    })
}

impl RowScale {
    /// A side times the scale; `Wide` where the product is out of range. Where all coefficients are 0 the side stays.
    fn product(&self, side: Frac) -> Result<Frac, Wide>
        requires { IsTrue self.now.zeros → self.now.times ≡ whole (pos 1) }
        ensures value { IfOk result (λ product. product ≡ self.now.times *ℚ side) }
        ensures narrow { OnOk result (IsFalse self.now.zeros → ProductInRange self.now.times side) }
        ensures wide { OnErr result (IsFalse self.now.zeros × (ProductInRange self.now.times side → ⊥)) }
    {
        if self.zeros {
            return Ok(side);
        }
        self.times.mul(&side)
    }

    /// The lower side times the scale, rounded up; `Wide` where the product is out of range.
    pub(crate) fn low(&self, low: Option<Frac>) -> Result<Option<i128>, Wide>
        requires { IsTrue self.now.zeros → self.now.times ≡ whole (pos 1) }
        ensures value { IfOk result (λ side. side ≡ option_map (λ l. ceil (self.now.times *ℚ l)) low) }
        ensures narrow { OnOk result (IsFalse self.now.zeros → LeavesRange self.now.times low → ⊥) }
        ensures wide { OnErr result (IsFalse self.now.zeros × LeavesRange self.now.times low) }
    {
        match low {
            None => Ok(None),
            Some(low) => Ok(Some(self.product(low)?.ceil())),
        }
    }

    /// The upper side times the scale, rounded down; `Wide` where the product is out of range.
    pub(crate) fn high(&self, high: Option<Frac>) -> Result<Option<i128>, Wide>
        requires { IsTrue self.now.zeros → self.now.times ≡ whole (pos 1) }
        ensures value { IfOk result (λ side. side ≡ option_map (λ h. floor (self.now.times *ℚ h)) high) }
        ensures narrow { OnOk result (IsFalse self.now.zeros → LeavesRange self.now.times high → ⊥) }
        ensures wide { OnErr result (IsFalse self.now.zeros × LeavesRange self.now.times high) }
    {
        match high {
            None => Ok(None),
            Some(high) => Ok(Some(self.product(high)?.floor())),
        }
    }
}
