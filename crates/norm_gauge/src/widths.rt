//! Widths.
ghost use Rattle.std.specs.Prelude.{◌≡◌, ◌+◌, ◌*◌, ◌<◌, ◌≤◌, ◌^◌, [], length, IfOk, IfErr};
ghost use Rattle.lp_dict.specs.Sizes.{MeetsCondition};
ghost use Rattle.lp_dict.specs.Systems.{wholes};
ghost use Rattle.norm_gauge.specs.Gauges.{IsGauge, WidthStopIs};
ghost use Rattle.spaces.specs.Tables.{rows_in};
ghost use Rattle.norm_gauge.specs.Widths.{AreNarrow, HasBound, IsInhabited, first_rows, polytope_of};

use crate::gauge::Gauge;
use crate::pairs::{form_of_pairs, opposite, system_of_pairs};
use crate::program::{Optimum, Values, optimise, point_of, values_at};
use frac128::Wide;
use lp_dict::System;
use lp_solve::{LpExcuse, LpStop, Pivots, Weights};
use spaces::{Form, Grid, Kernel};
use std::alloc::Global;

// The width under no rows: the form's greatest value less its least.
fn width_of_ends(alloc: Global, system: &System, form: &Form<Kernel>) -> Result<Gauge, LpStop>
    requires condition { MeetsCondition system.now.rows system.now.limits form.now }
    requires bounded { HasBound (polytope_of system.now.rows system.now.limits) }
    requires inhabited { IsInhabited (polytope_of system.now.rows system.now.limits) }
    ensures gauge { IfOk result (IsGauge (polytope_of system.now.rows system.now.limits) [] (wholes form.now)) }
    ensures stopped { IfErr result (WidthStopIs (polytope_of system.now.rows system.now.limits) [] (wholes form.now)) }
{
    let lower = optimise(alloc, system, form)?;
    let other = opposite(alloc, form)?;
    let upper = optimise(alloc, system, &other)?;
    let greatest = upper.value.neg();
    match greatest.sub(&lower.value) {
        Ok(value) => Ok(Gauge {
            value,
            least: lower.value,
            greatest,
            low: lower.point,
            high: upper.point,
            below: lower.multipliers,
            above: upper.multipliers,
        }),
        Err(Wide) => Err(LpStop::Excuse(LpExcuse::WideGauge {
            first: lower.pivots,
            second: upper.pivots,
        })),
    }
}

// The width under some rows: the least value of the pair system's program, with the other sign.
fn width_of_pairs(
    alloc: Global,
    system: &System,
    basis: &Grid<Kernel, i128>,
    i: usize,
    form: &Form<Kernel>,
) -> Result<Gauge, LpStop>
    requires condition { MeetsCondition system.now.rows system.now.limits form.now }
    requires some { 0 < i }
    requires within { i ≤ basis.now.rows }
    requires same_width { basis.now.width ≡ system.now.rows.width }
    requires few { ((system.now.rows.rows + system.now.rows.rows) + (i + i) + 1) * (system.now.rows.width + system.now.rows.width + 1) ≤ 2 ^ 31 }
    requires narrow_basis { AreNarrow (rows_in basis.now) }
    requires bounded { HasBound (polytope_of system.now.rows system.now.limits) }
    requires inhabited { IsInhabited (polytope_of system.now.rows system.now.limits) }
    ensures gauge { IfOk result (IsGauge (polytope_of system.now.rows system.now.limits) (first_rows basis.now i) (wholes form.now)) }
    ensures stopped { IfErr result (WidthStopIs (polytope_of system.now.rows system.now.limits) (first_rows basis.now i) (wholes form.now)) }
{
    let pairs = system_of_pairs(alloc, system, basis, i)?;
    let apart = form_of_pairs(alloc, form)?;
    let furthest = optimise(alloc, &pairs, &apart)?;
    let (first, second) = furthest.point.items().split_at(form.items().len());
    match values_at(form.items(), second, first) {
        Ok(values) => Ok(Gauge {
            value: furthest.value.neg(),
            least: values.first,
            greatest: values.second,
            low: point_of(alloc, second)?,
            high: point_of(alloc, first)?,
            below: furthest.multipliers,
            above: Weights::new(alloc),
        }),
        Err(Wide) => Err(LpStop::Excuse(LpExcuse::WideGauge {
            first: furthest.pivots,
            second: Pivots::new(alloc),
        })),
    }
}

/// The width of the form under the first `i` rows of the basis.
///
/// Under no rows, `least` and `greatest` are the form's ends. Under some, the points agree on these rows and are as far
/// apart as such points can be.
pub fn width(
    alloc: Global,
    system: &System,
    basis: &Grid<Kernel, i128>,
    i: usize,
    form: &Form<Kernel>,
) -> Result<Gauge, LpStop>
    requires condition { MeetsCondition system.now.rows system.now.limits form.now }
    requires within { i ≤ basis.now.rows }
    requires same_width { basis.now.width ≡ system.now.rows.width }
    requires few { ((system.now.rows.rows + system.now.rows.rows) + (i + i) + 1) * (system.now.rows.width + system.now.rows.width + 1) ≤ 2 ^ 31 }
    requires narrow_basis { AreNarrow (rows_in basis.now) }
    requires bounded { HasBound (polytope_of system.now.rows system.now.limits) }
    requires inhabited { IsInhabited (polytope_of system.now.rows system.now.limits) }
    ensures gauge { IfOk result (IsGauge (polytope_of system.now.rows system.now.limits) (first_rows basis.now i) (wholes form.now)) }
    ensures stopped { IfErr result (WidthStopIs (polytope_of system.now.rows system.now.limits) (first_rows basis.now i) (wholes form.now)) }
{
    if i == 0 {
        width_of_ends(alloc, system, form)
    } else {
        width_of_pairs(alloc, system, basis, i, form)
    }
}
