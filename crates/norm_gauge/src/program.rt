//! The linear programs of a width.
ghost use Rattle.std.specs.Prelude.{◌≡◌, ◌+◌, ◌≤◌, ◌⊎◌, [], ◌∷◌, pos, List, length, take, drop, IfOk, IfErr, OnErr, OkIff};
ghost use Rattle.std.specs.List.{All};
ghost use Rattle.exact_math.specs.Rational.{ℚ, ◌≤ℚ◌};
ghost use Rattle.exact_math.specs.RationalRing.{rationals};
ghost use Rattle.exact_vectors.specs.Vectors.{dot};
ghost use Rattle.frac128.specs.Range.{IsNarrow};
ghost use Rattle.lp_dict.specs.Dictionaries.{none};
ghost use Rattle.lp_dict.specs.Sizes.{MeetsCondition};
ghost use Rattle.lp_dict.specs.Systems.{wholes};
ghost use Rattle.lp_solve.specs.Ended.{EndsLeast};
ghost use Rattle.lp_solve.specs.Outcomes.{StopIs};
ghost use Rattle.norm_gauge.specs.Gauges.{IsLeastAt, program, SumStays};
ghost use Rattle.norm_gauge.specs.Widths.{Has, HasBound, IsInhabited, polytope_of};

use frac128::{Frac, Wide};
use lp_dict::System;
use lp_solve::{Ended, LpStop, Pivots, Point, Solved, Weights, minimise_with_pivots};
use sequence::NoMemory;
use spaces::{Form, Kernel};
use std::alloc::Global;

/// A point at which a form is least on a system, with the multipliers that show it and the pivots that led to it.
#[derive(Debug, Drop)]
pub(crate) struct Optimum {
    pub(crate) point: Point,
    pub(crate) value: Frac,
    pub(crate) multipliers: Weights,
    pub(crate) pivots: Pivots,
}

/// The least value of the form on a system that has a point.
pub(crate) fn optimise(
    alloc: Global,
    system: &System,
    form: &Form<Kernel>,
) -> Result<Optimum, LpStop>
    requires condition { MeetsCondition system.now.rows system.now.limits form.now }
    requires bounded { HasBound (polytope_of system.now.rows system.now.limits) }
    requires inhabited { IsInhabited (polytope_of system.now.rows system.now.limits) }
    ensures shown { IfOk result (λ o. IsLeastAt (polytope_of system.now.rows system.now.limits) (wholes form.now) o.point o.value o.multipliers) }
    ensures least { IfOk result (λ o. (y : List ℚ) → Has (polytope_of system.now.rows system.now.limits) y → o.value ≤ℚ dot rationals (wholes form.now) y) }
    ensures ended { IfOk result (λ o. EndsLeast (program (polytope_of system.now.rows system.now.limits) (wholes form.now)) o.pivots o.point o.value o.multipliers) }
    ensures stopped { IfErr result (StopIs (polytope_of system.now.rows system.now.limits).rows (polytope_of system.now.rows system.now.limits).limits (wholes form.now)) }
{
    let Ended { solved, pivots } = minimise_with_pivots(alloc, system, form)?;
    match solved {
        Solved::Least {
            point,
            value,
            multipliers,
        } => Ok(Optimum {
            point,
            value,
            multipliers,
            pivots,
        }),
        Solved::Empty {
            multipliers: _multipliers,
        } => unreachable!(),
    }
}

// The form's value at the point, taken in index order.
fn value_at(form: &[i128], point: &[Frac]) -> Result<Frac, Wide>
    requires size { length form.now ≡ length point.now }
    requires narrow { All IsNarrow form.now }
    ensures { OkIff result (SumStays none (wholes form.now) point.now) (dot rationals (wholes form.now) point.now) }
{
    let mut sum = Frac::whole(0);
    for j in 0..form.len() {
        let product = Frac::whole(form[j]).mul(&point[j])?;
        sum = sum.add(&product)?;
    }
    Ok(sum)
}

/// The form's values at two points.
#[derive(Clone, Copy, Debug)]
pub(crate) struct Values {
    pub(crate) first: Frac,
    pub(crate) second: Frac,
}

/// The form's values at two points, each taken in index order.
pub(crate) fn values_at(form: &[i128], first: &[Frac], second: &[Frac]) -> Result<Values, Wide>
    requires first { length form.now ≡ length first.now }
    requires second { length form.now ≡ length second.now }
    requires narrow { All IsNarrow form.now }
    ensures first { IfOk result (λ values. values.first ≡ dot rationals (wholes form.now) first.now) }
    ensures second { IfOk result (λ values. values.second ≡ dot rationals (wholes form.now) second.now) }
    ensures wide { OnErr result ((¬ (SumStays none (wholes form.now) second.now)) ⊎ (¬ (SumStays none (wholes form.now) first.now))) }
{
    Ok(Values {
        first: value_at(form, first)?,
        second: value_at(form, second)?,
    })
}

/// The point with these coordinates.
pub(crate) fn point_of(alloc: Global, coordinates: &[Frac]) -> Result<Point, NoMemory>
    ensures { IfOk result (λ point. point ≡ coordinates.now) }
{
    Ok(Point::from_vec(Vec::from_slice(alloc, coordinates)?))
}
