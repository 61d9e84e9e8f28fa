//! Multiples of forms of whole numbers, added to rows of fractions.
ghost use Rattle.std.specs.Prelude.{◌≡◌, ◌<◌, ◌^◌, pos, length, map, IfOk, OnErr, OnOk, OkIff};
ghost use Rattle.exact_math.specs.Rational.{whole, ◌+ℚ◌, ◌*ℚ◌};
ghost use Rattle.exact_math.specs.RationalRing.{rationals};
ghost use Rattle.exact_vectors.specs.Vectors.{negate};
ghost use Rattle.spaces.specs.Tables.{rows_in};
ghost use Rattle.farkas_lift.specs.NodeLifting.{with_multiple, with_multiples, EntryStays, MultipleStays, MultiplesStay};

use frac128::{Frac, Wide};
use sequence::NoMemory;
use spaces::{Grid, Space};
use std::alloc::Global;

/// One more than the greatest size of a numerator.
const LIMIT: u128 = 1 << 127;

/// Adds multiples of the rows of a matrix to a row, one after another.
///
/// `Wide` comes exactly where a product or a sum leaves the range of `Frac`, or a factor that is used does.
pub(crate) fn add_multiples<S: Space>(
    row: &mut [Frac],
    times: &[Frac],
    forms: &Grid<S, i128>,
) -> Result<(), Wide>
    requires width { forms.now.width ≡ length row.old }
    requires as_many { length times.now ≡ forms.now.rows }
    ensures ok { OnOk result (row.new ≡ with_multiples row.old times.now (rows_in forms.now)) }
    ensures in_range { OnOk result (MultiplesStay row.old times.now (rows_in forms.now)) }
    ensures wide { OnErr result (¬ (MultiplesStay row.old times.now (rows_in forms.now))) }
{
    for i in 0..times.len() {
        add_multiple(row, &times[i], forms.row(i))?;
    }
    Ok(())
}

/// Adds a multiple of a form to a row.
fn add_multiple(row: &mut [Frac], times: &Frac, form: &[i128]) -> Result<(), Wide>
    requires { length form.now ≡ length row.old }
    ensures ok { OnOk result (row.new ≡ with_multiple row.old times.now form.now) }
    ensures in_range { OnOk result (MultipleStays row.old times.now form.now) }
    ensures wide { OnErr result (¬ (MultipleStays row.old times.now form.now)) }
{
    if times.num() == 0 {
        return Ok(());
    }
    for j in 0..row.len() {
        row[j] = raised(&row[j], times, form[j])?;
    }
    Ok(())
}

/// An entry with the product of the multiplier and the factor added.
#[tactic(auto, using(crate::proofs::MultipleLaws::nothing_added))]
fn raised(entry: &Frac, times: &Frac, factor: i128) -> Result<Frac, Wide>
    ensures { OkIff result (EntryStays entry.now times.now factor) (entry.now +ℚ times.now *ℚ whole factor) }
{
    if factor == 0 {
        return Ok(*entry);
    }
    if factor.unsigned_abs() >= LIMIT {
        return Err(Wide);
    }
    let product = times.mul(&Frac::whole(factor))?;
    entry.add(&product)
}

/// Fractions with the other sign.
pub fn negated(alloc: Global, row: &[Frac]) -> Result<Vec<Frac>, NoMemory>
    ensures { IfOk result (λ turned. turned.items ≡ negate rationals row.now) }
{
    let mut turned = Vec::with_capacity(alloc, row.len())?;
    for entry in row {
        turned.push(entry.neg())?;
    }
    Ok(turned)
}
