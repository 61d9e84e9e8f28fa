//! The thinnest free column.
ghost use Rattle.std.specs.Prelude.{◌≡◌, ◌<◌, suc, length, All, IfOk, IfSome};
ghost use Rattle.form_widths.specs.Directions.{IsDirection};
ghost use Rattle.frac128.specs.Range.{IsNarrow};
ghost use Rattle.generalised_reduce.specs.Ready.{IsReady};
ghost use Rattle.norm_gauge.specs.Widths.{Has, polytope_of};
ghost use Rattle.spaces.specs.Tables.{rows_in};
ghost use Rattle.thin_forms.specs.Candidates.{IsCandidate};
ghost use Rattle.thin_columns.specs.Columns.{IsThinnest, ThinnestIs};

use crate::slacks::is_below_forms;
use crate::stop::ColumnStop;
use lp_dict::System;
use norm_gauge::width;
use sequence::NoMemory;
use spaces::{Form, Grid, Kernel};
use std::alloc::Global;
use thin_forms::{ThinForm, primitive_part};

// Of the form that is kept and column `j`, made primitive, the thinner one; the one that is kept where they are as thin.
fn weigh(
    alloc: Global,
    system: &System,
    lines: &Grid<Kernel, i128>,
    j: usize,
    best: Option<ThinForm>,
) -> Result<Option<ThinForm>, ColumnStop>
    requires ready { IsReady system.now.rows system.now.limits }
    requires width { lines.now.width ≡ system.now.rows.width }
    requires narrow { All IsNarrow lines.now.items }
    requires inside { j < lines.now.rows }
    requires best { ThinnestIs (polytope_of system.now.rows system.now.limits) (rows_in lines.now) j best }
    ensures { IfOk result (ThinnestIs (polytope_of system.now.rows system.now.limits) (rows_in lines.now) (suc j)) }
{
    let Some(form) = primitive_part(alloc, lines.row(j))? else {
        return Ok(best);
    };
    // under none of the lines
    let gauge = width(alloc, system, lines, 0, &form)?;
    let Some(kept) = best else {
        return Ok(Some(ThinForm { form, gauge }));
    };
    if kept.gauge.value <= gauge.value {
        Ok(Some(kept))
    } else {
        Ok(Some(ThinForm { form, gauge }))
    }
}

// A free column of least width on the points of the system, made primitive, and its gauge; none where no column is free.
fn thinnest_column(
    alloc: Global,
    system: &System,
    lines: &Grid<Kernel, i128>,
) -> Result<Option<ThinForm>, ColumnStop>
    requires ready { IsReady system.now.rows system.now.limits }
    requires width { lines.now.width ≡ system.now.rows.width }
    requires narrow { All IsNarrow lines.now.items }
    ensures { IfOk result (ThinnestIs (polytope_of system.now.rows system.now.limits) (rows_in lines.now) (length (rows_in lines.now))) }
{
    let mut best = None;
    for j in 0..lines.rows() {
        best = weigh(alloc, system, lines, j, best)?;
    }
    Ok(best)
}

// The thinnest free column, where it is shown to be a direction.
fn shown_column(
    alloc: Global,
    system: &System,
    lines: &Grid<Kernel, i128>,
) -> Result<Option<Form<Kernel>>, ColumnStop>
    requires ready { IsReady system.now.rows system.now.limits }
    requires width { lines.now.width ≡ system.now.rows.width }
    requires narrow { All IsNarrow lines.now.items }
    ensures direction { IfOk result (λ found. IfSome found (IsDirection (Has (polytope_of system.now.rows system.now.limits)) system.now.rows.width (rows_in lines.now))) }
    ensures candidate { IfOk result (λ found. IfSome found (IsCandidate (polytope_of system.now.rows system.now.limits) (rows_in lines.now))) }
    ensures narrow { IfOk result (λ found. IfSome found (All IsNarrow)) }
{
    let Some(ThinForm { form, gauge }) = thinnest_column(alloc, system, lines)? else {
        return Ok(None);
    };
    let shown = is_below_forms(alloc, system, &gauge.value)?;
    if shown { Ok(Some(form)) } else { Ok(None) }
}

/// The thinnest free column of the system, made primitive, where the slacks of the inequalities show that it is a direction;
/// none where they do not, or a linear program stops. The lines are the forms of the columns, one row each.
///
/// A point with the greatest slack of an inequality is found for each; their mean has room in every coordinate, so that no
/// whole form other than 0 is thinner than twice that room.
pub fn thin_column(
    alloc: Global,
    system: &System,
    lines: &Grid<Kernel, i128>,
) -> Result<Option<Form<Kernel>>, NoMemory>
    requires ready { IsReady system.now.rows system.now.limits }
    requires width { lines.now.width ≡ system.now.rows.width }
    requires narrow { All IsNarrow lines.now.items }
    ensures direction { IfOk result (λ found. IfSome found (IsDirection (Has (polytope_of system.now.rows system.now.limits)) system.now.rows.width (rows_in lines.now))) }
    ensures candidate { IfOk result (λ found. IfSome found (IsCandidate (polytope_of system.now.rows system.now.limits) (rows_in lines.now))) }
    ensures narrow { IfOk result (λ found. IfSome found (All IsNarrow)) }
{
    match shown_column(alloc, system, lines) {
        Ok(found) => Ok(found),
        Err(ColumnStop::Unshown) => Ok(None),
        Err(ColumnStop::NoMemory) => Err(NoMemory),
    }
}
