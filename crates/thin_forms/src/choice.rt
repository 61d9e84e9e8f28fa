//! The choice among the candidates for a direction.
ghost use Rattle.std.specs.Prelude.{◌≡◌, ◌-◌, ◌^◌, ◌<◌, suc, [], length, IfErr, IfOk, OnOk};
ghost use Rattle.std.specs.List.{All};
ghost use Rattle.form_widths.specs.Directions.{IsDirection};
ghost use Rattle.form_widths.specs.Widths.{IsPrimitive};
ghost use Rattle.frac128.specs.Range.{IsNarrow};
ghost use Rattle.generalised_reduce.specs.Halts.{ThinStopIs};
ghost use Rattle.generalised_reduce.specs.Ready.{IsReady};
ghost use Rattle.generalised_reduce.specs.Reduced.{IsWithinFactor};
ghost use Rattle.lp_dict.specs.Systems.{wholes};
ghost use Rattle.norm_gauge.specs.Gauges.{IsGauge};
ghost use Rattle.norm_gauge.specs.Widths.{Has, polytope_of};
ghost use Rattle.spaces.specs.Tables.{rows_in};
ghost use Rattle.thin_forms.specs.Candidates.{IsCandidate, IsFirstOfReduced};
ghost use Rattle.thin_forms.specs.Choices.{IsChosen};
ghost use Rattle.thin_forms.specs.Stops.{ThinFormStopIs};

use crate::answer::{ThinForm, ThinFormStop};
use crate::parts::primitive_part;
use generalised_reduce::{ThinBasis, ThinStop, thin};
use lp_dict::System;
use lp_solve::LpStop;
use norm_gauge::width;
use spaces::{Form, Grid, Kernel};
use std::alloc::Global;

// The first row of a reduced basis, with its gauge.
fn first_row(alloc: Global, system: &System) -> Result<ThinForm, ThinStop>
    requires ready { IsReady system.now.rows system.now.limits }
    ensures first { IfOk result (λ t. IsFirstOfReduced (polytope_of system.now.rows system.now.limits) t.form) }
    ensures coordinates { IfOk result (λ t. length t.form ≡ system.now.rows.width) }
    ensures primitive { IfOk result (λ t. IsPrimitive t.form) }
    ensures narrow { IfOk result (λ t. All IsNarrow t.form) }
    ensures gauge { IfOk result (λ t. IsGauge (polytope_of system.now.rows system.now.limits) [] (wholes t.form) t.gauge) }
    ensures thin { IfOk result (λ t. IsWithinFactor (polytope_of system.now.rows system.now.limits) (4 ^ (system.now.rows.width - 1)) (wholes t.form)) }
    ensures stop { IfErr result (ThinStopIs (polytope_of system.now.rows system.now.limits)) }
{
    let count = system.rows.width();
    let ThinBasis {
        pair,
        gauges,
        moves: _moves,
    } = thin(alloc, system, count)?;
    let mut gauges = gauges.into_vec();
    let gauge = gauges.swap_remove(0);
    match Vec::from_slice(alloc, pair.u().row(0)) {
        Ok(row) => Ok(ThinForm {
            form: Form::of(row),
            gauge,
        }),
        Err(_none) => Err(ThinStop::NoMemory),
    }
}

impl ThinForm {
    // Takes column `j`, made primitive, in the place of this form where it is free and thinner.
    fn weigh(
        &mut self,
        alloc: Global,
        system: &System,
        lines: &Grid<Kernel, i128>,
        j: usize,
    ) -> Result<(), ThinFormStop>
        requires ready { IsReady system.now.rows system.now.limits }
        requires width { lines.now.width ≡ system.now.rows.width }
        requires narrow { All IsNarrow lines.now.items }
        requires inside { j < lines.now.rows }
        requires chosen { IsChosen (polytope_of system.now.rows system.now.limits) (rows_in lines.now) j self.old.form self.old.gauge }
        ensures chosen { OnOk result (IsChosen (polytope_of system.now.rows system.now.limits) (rows_in lines.now) (suc j) self.new.form self.new.gauge) }
        ensures stop { IfErr result (ThinFormStopIs (polytope_of system.now.rows system.now.limits) (rows_in lines.now)) }
    {
        let Some(form) = primitive_part(alloc, lines.row(j))? else {
            return Ok(());
        };
        // under none of the lines
        match width(alloc, system, lines, 0, &form) {
            Ok(gauge) => {
                let best = self.gauge.value;
                if best <= gauge.value {
                    return Ok(());
                }
                *self = ThinForm { form, gauge };
                Ok(())
            }
            Err(LpStop::Excuse(lp)) => Err(ThinFormStop::Column { form, lp }),
            Err(LpStop::NoMemory) => Err(ThinFormStop::NoMemory),
        }
    }
}

/// A form of least width on the rational points of the system, among the first row of a reduced basis and each free column
/// made primitive, which makes it a direction. The lines are the forms of the columns, one row each.
///
/// `Thin` comes only where the reduction of the basis stops, as `thin` says; `Column` only where a linear program of the width
/// of a free column made primitive stops, or its gauge.
pub fn thinnest(
    alloc: Global,
    system: &System,
    lines: &Grid<Kernel, i128>,
) -> Result<ThinForm, ThinFormStop>
    requires ready { IsReady system.now.rows system.now.limits }
    requires width { lines.now.width ≡ system.now.rows.width }
    requires narrow { All IsNarrow lines.now.items }
    ensures direction { IfOk result (λ t. IsDirection (Has (polytope_of system.now.rows system.now.limits)) system.now.rows.width (rows_in lines.now) t.form) }
    ensures narrow { IfOk result (λ t. All IsNarrow t.form) }
    ensures candidate { IfOk result (λ t. IsCandidate (polytope_of system.now.rows system.now.limits) (rows_in lines.now) t.form) }
    ensures gauge { IfOk result (λ t. IsGauge (polytope_of system.now.rows system.now.limits) [] (wholes t.form) t.gauge) }
    ensures stop { IfErr result (ThinFormStopIs (polytope_of system.now.rows system.now.limits) (rows_in lines.now)) }
{
    let mut best = first_row(alloc, system)?;
    for j in 0..lines.rows() {
        best.weigh(alloc, system, lines, j)?;
    }
    Ok(best)
}
