//! The integer row of one row of a model.
ghost use Rattle.std.specs.Prelude.{◌≡◌, ◌<◌, length, OnOk, IsErrOf};
ghost use Rattle.whole_rows.specs.WholeRows.{with_row};
ghost use Rattle.int_model.specs.declared.part.PartStop.TheVariants as part_stops;
ghost use Rattle.int_model.specs.Scale.{integer_row};
ghost use Rattle.int_model.specs.IntegerRows.{fraction_row, IsDistinctBelow};
ghost use Rattle.int_model.specs.Large.{IsLargeRow};

use crate::model::Row;
use crate::part::PartStop;
use crate::products::push_products;
use crate::scales::scale_of;
use whole_rows::DenseRows;

/// Puts the integer row of a row at the end. The factors are made in `factors`, whatever stands there.
pub(crate) fn push_integer_row(
    whole: &mut DenseRows,
    factors: &mut Vec<i128>,
    row: &Row,
) -> Result<(), PartStop>
    requires items { IsDistinctBelow (length whole.old.box) row.now.items }
    requires room { length whole.old.rows < 256 }
    ensures row { OnOk result (whole.new ≡ with_row whole.old (integer_row (fraction_row (length whole.old.box) row.now))) }
    ensures small { OnOk result (IsLargeRow whole.old.box (fraction_row (length whole.old.box) row.now) → ⊥) }
    ensures large { IsErrOf result part_stops.Large → IsLargeRow whole.old.box (fraction_row (length whole.old.box) row.now) }
{
    let items = row.items.items();
    let Some(scale) = scale_of(items) else {
        return Err(PartStop::Large);
    };
    factors.clear();
    push_products(factors, whole.columns(), items, &scale.times)?;
    let Ok(low) = scale.low(row.lo) else {
        return Err(PartStop::Large);
    };
    let Ok(high) = scale.high(row.hi) else {
        return Err(PartStop::Large);
    };
    whole.push_row(factors, low, high)?;
    Ok(())
}
