//! A model without its columns of one value and the rows that its box cannot violate.
ghost use Rattle.std.specs.Prelude.{◌≡◌, ◌≢◌, length, IfNone, IfOk, IfSome};
ghost use Rattle.presolve_map.specs.Columns.{IsColumnMap};
ghost use Rattle.presolve_map.specs.Lifted.{lifted_form};
ghost use Rattle.presolve_map.specs.ReducedRows.{IsReduced};

use presolve_map::{WorkRows, lift_form};
use sequence::NoMemory;
use spaces::{Affine, Form, Original, Work};
use std::alloc::Global;
use whole_rows::DenseRows;

/// What presolving left of rows, with the map from the values of its columns to those of all columns.
#[derive(Debug, Drop)]
pub struct OpenModel<'a> {
    pub rows: &'a DenseRows,
    pub map: Affine<Work, Original>,
    pub work: WorkRows,
    pub ghost columns: { IsColumnMap rows.now.box map },
    pub ghost presolved: { IsReduced rows.now work },
}

impl OpenModel<'_> {
    /// The form over all columns with these factors in the work columns, 0 in the others; none where there are more factors or
    /// fewer.
    pub fn lifted(
        &self,
        alloc: Global,
        factors: &[i128],
    ) -> Result<Option<Form<Original>>, NoMemory>
        ensures value { IfOk result (λ found. IfSome found (λ form. form ≡ lifted_form self.now.map factors.now)) }
        ensures none { IfOk result (λ found. IfNone found (length factors.now ≢ self.now.map.lines.width)) }
    {
        if factors.len() != self.map.lines().width() {
            return Ok(None);
        }
        let form = Form::of(factors.to_vec(alloc)?);
        let lifted = lift_form(alloc, &self.map, &form)?;
        Ok(Some(lifted))
    }
}
