//! Multipliers of the equalities of a root, as multipliers of the model's inequalities.
ghost use Rattle.std.specs.Prelude.{◌≡◌, pos, IfOk, OnOk};
ghost use Rattle.std.specs.List.{All};
ghost use Rattle.std.specs.List.Sorted.{IsStrictlyIncreasing};
ghost use Rattle.exact_math.specs.Rational.{whole, ◌<ℚ◌};
ghost use Rattle.presolve_map.specs.LiftedLines.{numbers_of, IsWorkNumber};
ghost use Rattle.presolve_map.specs.ReducedRows.{IsReduced};
ghost use Rattle.whole_rows.specs.WholeRows.{IsWithinLimits};
ghost use Rattle.farkas_lift.specs.NodeLifting.{root_uses};

use crate::place::{node_places, uses_of};
use crate::side::node_sides;
use farkas_rows::OriginalTimes;
use frac128::Frac;
use presolve_map::WorkRows;
use sequence::NoMemory;
use std::alloc::Global;
use whole_rows::DenseRows;

/// The inequalities of the model that are the equalities of its root, each so many times: a negative multiplier stands on the
/// lower side, with its size. Multipliers of 0 make no items.
pub fn lift_equalities(
    alloc: Global,
    model: &DenseRows,
    rows: &WorkRows,
    times: &[Frac],
) -> Result<OriginalTimes, NoMemory>
    requires reduced { IsReduced model.now rows.now }
    ensures items { IfOk result (λ items. items ≡ root_uses model.now rows.now times.now) }
    ensures numbers { IfOk result (All (λ item. IsWorkNumber model.now item.index)) }
    ensures rising { IfOk result (λ items. IsStrictlyIncreasing (numbers_of items)) }
    ensures positive { IfOk result (All (λ item. whole (pos 0) <ℚ item.times)) }
    ensures limits { OnOk result (IsWithinLimits model.now) }
{
    let sides = node_sides(alloc, rows, false)?;
    let weights = vec![in alloc; Frac::whole(0); sides.len()]?;
    let places = node_places(alloc, model, rows, 0)?;
    let uses = uses_of(alloc, &places, &weights, times)?;
    Ok(OriginalTimes::from_vec(uses))
}
