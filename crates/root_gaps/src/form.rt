//! The form of a gap, over all columns.
ghost use Rattle.std.specs.Prelude.{◌≡◌, ℤ, [], pos, length, All, IfOk};
ghost use Rattle.farkas_lift.specs.NodeEqualities.{node_equalities, work_form};
ghost use Rattle.node_regions.specs.NodeFrames.{IsKeptForm};
ghost use Rattle.presolve_map.specs.Columns.{IsColumnMap};
ghost use Rattle.presolve_map.specs.ReducedRows.{IsReduced};
ghost use Rattle.presolve_map.specs.Roots.{IsClosedRoot};
ghost use Rattle.reformulate.specs.Gaps.{IsGap};
ghost use Rattle.whole_rows.specs.WholeRows.{IsWithinLimits};

use presolve_map::{WorkRows, lift_form};
use reformulate::Gap;
use sequence::NoMemory;
use spaces::{Affine, Form, Original, Work};
use std::alloc::Global;
use whole_rows::DenseRows;

/// The form over all columns with the factors of a gap's form, 0 in the columns that presolving removes. It is not all 0: a row that
/// is left is one that the box can violate.
pub(crate) fn gap_form(
    alloc: Global,
    rows: &DenseRows,
    work: &WorkRows,
    map: &Affine<Work, Original>,
    gap: &Gap,
) -> Result<Form<Original>, NoMemory>
    requires map { IsColumnMap rows.now.box map.now }
    requires presolved { IsReduced rows.now work.now }
    requires open { IsClosedRoot rows.now → ⊥ }
    requires gap { IsGap (length work.now.rows.box) (node_equalities work.now []) gap.now }
    ensures kept { IfOk result (IsKeptForm rows.now.box) }
    ensures same { IfOk result (λ form. work_form work.now form ≡ gap.now.form) }
    ensures dense { IfOk result (λ form. length form ≡ length rows.now.box) }
    ensures some { IfOk result (λ form. ¬ (All (λ factor. factor ≡ pos 0) form)) }
{
    let _columns = rows.columns();
    let lifted = lift_form(alloc, map, &gap.form)?;
    Ok(lifted)
}
