//! A row's items as a whole number for each column.
ghost use Rattle.std.specs.Prelude.{◌≡◌, ◌++◌, OnOk, IsErrOf, map};
ghost use Rattle.exact_math.specs.Rational.{◌*ℚ◌};
ghost use Rattle.int_model.specs.IntegerRows.{coefficients_of, IsDistinctBelow};
ghost use Rattle.int_model.specs.ItemFactors.{LeavesRangeAt};
ghost use Rattle.int_model.specs.declared.part.PartStop.TheVariants as part_stops;

use crate::model::Item;
use crate::part::PartStop;
use frac128::Frac;

/// Puts the numerator of `times` times the coefficient, for each of `width` columns, at the end. The part is large where
/// such a product is out of range.
pub(crate) fn push_products(
    numbers: &mut Vec<i128>,
    width: usize,
    items: &[Item],
    times: &Frac,
) -> Result<(), PartStop>
    requires { IsDistinctBelow width items.now }
    ensures ok { OnOk result (numbers.new.items ≡ numbers.old.items ++ map (λ q. (times.now *ℚ q).num) (coefficients_of width items.now)) }
    ensures large { IsErrOf result part_stops.Large → LeavesRangeAt times.now (coefficients_of width items.now) }
{
    let mut at = 0;
    for column in 0..width {
        if at < items.len() && items[at].column as usize == column {
            let Ok(product) = times.mul(&items[at].factor) else {
                return Err(PartStop::Large);
            };
            numbers.push(product.num())?;
            at += 1;
        } else {
            numbers.push(0)?;
        }
    }
    Ok(())
}
