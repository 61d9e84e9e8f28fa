//! The two ends of a gap's form, with the lines that refute them.
ghost use Rattle.std.specs.Prelude.{◌≡◌, Some, IfOk, IfErr};
ghost use Rattle.lp_dict.specs.Systems.{wholes};
ghost use Rattle.farkas_rows.specs.Inequalities.{above, below};
ghost use Rattle.root_gaps.specs.GapEnds.{ClosesEnd, HaltsGap, IsFormOfGap};

use crate::corner::box_line;
use crate::lines::{fractions_of, times_line};
use farkas_lift::negated;
use farkas_rows::{End, Line};
use frac128::Frac;
use node_lines::LineHalt;
use presolve_map::WorkRows;
use reformulate::Gap;
use spaces::{Form, Original};
use std::alloc::Global;
use whole_rows::DenseRows;

/// A first value of this size stands for one that may lie farther out.
const FARTHEST: i128 = 1 << 97;

/// The lines of the values of a form below a first one, and of those from there on.
#[derive(Drop)]
pub(crate) struct EndLines {
    pub(crate) below: Line,
    pub(crate) above: Line,
}

/// The line of the values below the first one: the equalities minus the gap's times, or the box.
fn lower_line(
    alloc: Global,
    rows: &DenseRows,
    work: &WorkRows,
    gap: &Gap,
    form: &Form<Original>,
    times: &[Frac],
) -> Result<Line, LineHalt>
    requires gap { IsFormOfGap rows.now work.now gap.now form.now }
    requires times { times.now ≡ wholes gap.now.times }
    ensures line { IfOk result (ClosesEnd rows.now (Some (below form.now gap.now.lo))) }
    ensures halt { IfErr result (HaltsGap rows.now) }
{
    let _columns = rows.columns();
    let end = End::Below { form, lo: gap.lo };
    if gap.lo == -FARTHEST {
        return box_line(alloc, rows, form.items(), false, &end);
    }
    let turned = negated(alloc, times)?;
    times_line(alloc, rows, work, gap.divisor, &turned, &end)
}

/// The line of the values from the first one on: the equalities the gap's times, or the box.
fn upper_line(
    alloc: Global,
    rows: &DenseRows,
    work: &WorkRows,
    gap: &Gap,
    form: &Form<Original>,
    times: &[Frac],
) -> Result<Line, LineHalt>
    requires gap { IsFormOfGap rows.now work.now gap.now form.now }
    requires times { times.now ≡ wholes gap.now.times }
    ensures line { IfOk result (ClosesEnd rows.now (Some (above form.now gap.now.lo))) }
    ensures halt { IfErr result (HaltsGap rows.now) }
{
    let _columns = rows.columns();
    let end = End::Above { form, from: gap.lo };
    if gap.lo == FARTHEST {
        return box_line(alloc, rows, form.items(), true, &end);
    }
    times_line(alloc, rows, work, gap.divisor, times, &end)
}

/// The lines of both ends.
pub(crate) fn end_lines(
    alloc: Global,
    rows: &DenseRows,
    work: &WorkRows,
    gap: &Gap,
    form: &Form<Original>,
) -> Result<EndLines, LineHalt>
    requires gap { IsFormOfGap rows.now work.now gap.now form.now }
    ensures below { IfOk result (λ lines. ClosesEnd rows.now (Some (below form.now gap.now.lo)) lines.below) }
    ensures above { IfOk result (λ lines. ClosesEnd rows.now (Some (above form.now gap.now.lo)) lines.above) }
    ensures halt { IfErr result (HaltsGap rows.now) }
{
    let _columns = rows.columns();
    let times = fractions_of(alloc, gap.times.items())?;
    let below = lower_line(alloc, rows, work, gap, form, &times)?;
    let above = upper_line(alloc, rows, work, gap, form, &times)?;
    Ok(EndLines { below, above })
}
