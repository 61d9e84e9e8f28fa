//! The move of a root whose equalities have a gap.
ghost use Rattle.std.specs.Prelude.{◌≡◌, ◌≢◌, ℤ, [], Option, IfOk, OnOk, length};
ghost use Rattle.farkas_lift.specs.NodeEqualities.{node_equalities};
ghost use Rattle.presolve_map.specs.Columns.{IsColumnMap};
ghost use Rattle.presolve_map.specs.ReducedRows.{IsReduced};
ghost use Rattle.presolve_map.specs.Roots.{IsClosedRoot};
ghost use Rattle.reformulate.specs.Gaps.{IsGap};
ghost use Rattle.reformulate.specs.Misses.{EndsInGap};
ghost use Rattle.node_lines.specs.declared.halt.LineHalt.TheVariants as halts;
ghost use Rattle.exact_nodes.specs.declared.excuse.Excuse.TheVariants.{HeavyLine};
ghost use Rattle.root_gaps.specs.GapMoves.{IsGapMove};
ghost use Rattle.root_gaps.specs.declared.outcome.GapMove.TheVariants as moves;

use crate::ends::end_lines;
use crate::form::gap_form;
use crate::outcome::GapMove;
use exact_nodes::{Excuse, LineBasis};
use lp_solve::Pivots;
use node_lines::LineHalt;
use presolve_map::WorkRows;
use proof_tree::{Cut, Mark};
use reformulate::Gap;
use sequence::NoMemory;
use spaces::{Affine, Original, Work};
use std::alloc::Global;
use whole_rows::{DenseRows, span_of};

/// The excuse of a gap that has no lines.
fn no_lines(alloc: Global, halt: LineHalt) -> Result<GapMove, NoMemory>
    ensures excuse { IfOk result (λ found. found ≡ moves.Excused (HeavyLine (record { pivots = [] }))) }
    ensures too_large { OnOk result (halt ≢ halts.NoMemory) }
{
    if halt == LineHalt::NoMemory {
        return Err(NoMemory);
    }
    let pivots = Pivots::new(alloc);
    Ok(GapMove::Excused(Excuse::HeavyLine(LineBasis { pivots })))
}

/// The split of a root along the form of the gap in which legal framing of its equalities ends, which has no whole value there. The map is that of presolving,
/// which did not close the root.
///
/// `Excused` comes only where the form weighs above 2 to the power 96, or a line of the gap's times above 2 to the power 126.
pub fn gap_move(
    alloc: Global,
    rows: &DenseRows,
    work: &WorkRows,
    map: &Affine<Work, Original>,
    gap: &Gap,
) -> Result<GapMove, NoMemory>
    requires map { IsColumnMap rows.now.box map.now }
    requires presolved { IsReduced rows.now work.now }
    requires open { IsClosedRoot rows.now → ⊥ }
    requires gap { IsGap (length work.now.rows.box) (node_equalities work.now []) gap.now }
    requires ends { EndsInGap (length work.now.rows.box) (node_equalities work.now []) gap.now }
    ensures { IfOk result (λ found. (best : Option ℤ) → IsGapMove rows.now best found) }
{
    let form = gap_form(alloc, rows, work, map, gap)?;
    if span_of(form.items(), rows.bounds()).is_none() {
        return Ok(GapMove::Excused(Excuse::HeavyForm(form)));
    }
    match end_lines(alloc, rows, work, gap, &form) {
        Ok(lines) => Ok(GapMove::Split(Cut {
            form,
            lo: gap.lo,
            count: 0,
            below: lines.below,
            above: lines.above,
            mark: Mark::Thin,
        })),
        Err(halt) => no_lines(alloc, halt),
    }
}
