//! Multipliers of a node's system, carried back to the inequalities of the model.
ghost use Rattle.std.specs.Prelude.{◌≡◌, ℤ, pos, ◌≤◌, List, length, get_or, false, IfErr, IfOk, OnOk, Option};
ghost use Rattle.std.specs.List.{All};
ghost use Rattle.std.specs.List.Sorted.{IsStrictlyIncreasing};
ghost use Rattle.exact_math.specs.Rational.{ℚ, whole, ◌≤ℚ◌, ◌<ℚ◌};
ghost use Rattle.exact_math.specs.RationalRing.{rationals};
ghost use Rattle.exact_vectors.specs.Inequalities.{NotNegativeBy};
ghost use Rattle.exact_vectors.specs.Matrices.{HasWidth};
ghost use Rattle.farkas_rows.specs.Inequalities.{Inequality};
ghost use Rattle.farkas_rows.specs.Refutes.{HasForms};
ghost use Rattle.presolve_map.specs.LiftedLines.{numbers_of, IsOverKept, IsWorkNumber};
ghost use Rattle.presolve_map.specs.ReducedRows.{IsReduced};
ghost use Rattle.reformulate.specs.Frames.{IsFrame};
ghost use Rattle.reformulate.specs.Substitutions.{columns_of, IsShaped};
ghost use Rattle.row_lifting.specs.Lifting.{none, lifted, LiftStays, SumsTo};
ghost use Rattle.row_lifting.specs.Stops.{StopsUnless};
ghost use Rattle.spaces.specs.Tables.{rows_in};
ghost use Rattle.farkas_lift.specs.NodeEqualities.{node_equalities};
ghost use Rattle.farkas_lift.specs.NodeLifting.{equality_forms, lifted_limit, lifted_uses, rest_form, system_form, ComesTo, HasOneEach, RestStays, WeightsStay};
ghost use Rattle.farkas_lift.specs.NodeSides.{node_sides};

use crate::equalities::node_equalities;
use crate::grids::{equality_grid, side_grid};
use crate::multiples::{add_multiples, negated};
use crate::place::{LONGEST_PATH, node_places, uses_of};
use crate::side::node_sides;
use farkas_rows::{OriginalTimes, Path};
use frac128::Frac;
use presolve_map::{WorkRows, WorkTimes};
use reformulate::Frame;
use row_lifting::{LiftStop, lift_row};
use sequence::Sequence;
use spaces::{Grid, Work};
use std::alloc::Global;
use whole_rows::DenseRows;

/// The multipliers of the model's inequalities that come to what these weights of the node's system come to.
///
/// There is one weight of at least 0 for each inequality that `kernel_system` gives, with or without a cut, and the frame is one
/// of the node's equalities. Let the weights give the left side g and the right side s in the coordinates of the frame. The
/// answer has the weights on their rows, bounds and cut, and on the equalities the multipliers that sum them up to g V less the
/// weighted left sides, a negative one on the lower side with its size. So its left side is g V, and its right side s + g V x0.
/// Weights of 0 make no items.
///
/// `Wide` comes exactly where a number on the way leaves the range of `Frac`: the products and sums, in index order, of the
/// weighted left sides, of g and of g V, the differences one after another, and the numbers of the elimination.
pub fn lift(
    alloc: Global,
    model: &DenseRows,
    frame: &Frame,
    rows: &WorkRows,
    path: &Path,
    weights: &[Frac],
) -> Result<WorkTimes, LiftStop>
    requires reduced { IsReduced model.now rows.now }
    requires columns { columns_of frame.now ≡ length rows.now.rows.box }
    requires frame { IsFrame (node_equalities rows.now path.now) frame.now }
    requires forms { HasForms (length model.now.box) path.now }
    requires kept { All (λ slice. IsOverKept model.now slice.form) path.now }
    requires one_each { HasOneEach rows.now weights.now }
    requires not_negative { NotNegativeBy rationals ◌≤ℚ◌ weights.now }
    ensures cut { IfOk result (λ times. times.cut ≡ get_or weights.now (length (node_sides rows.now false)) none) }
    ensures items { IfOk result (λ times. times.items ≡ lifted_uses model.now frame.now rows.now path.now weights.now) }
    ensures numbers { IfOk result (λ times. All (λ item. IsWorkNumber model.now item.index) times.items) }
    ensures rising { IfOk result (λ times. IsStrictlyIncreasing (numbers_of times.items)) }
    ensures positive { IfOk result (λ times. All (λ item. whole (pos 0) <ℚ item.times) times.items) }
    ensures comes { IfOk result (λ times. (end : Option Inequality) (value : ℤ) → ComesTo model.now rows.now path.now end value times.cut times.items (system_form frame.now rows.now weights.now) (lifted_limit frame.now rows.now value weights.now)) }
    ensures in_range { OnOk result (WeightsStay frame.now rows.now path.now weights.now) }
    ensures stop { IfErr result (StopsUnless (WeightsStay frame.now rows.now path.now weights.now)) }
{
    let slices = path.items().len();
    if slices > LONGEST_PATH {
        return Err(LiftStop::NoMemory);
    }
    let mut sides = node_sides(alloc, rows, true)?;
    let cut = weight_at(weights, sides.len() - 1);
    sides.truncate(weights.len());
    let forms = side_grid(alloc, rows, &sides)?;
    let rest = rest_form(alloc, frame, &forms, weights)?;
    let times = equality_times(alloc, rows, path, rest)?;
    let places = node_places(alloc, model, rows, slices)?;
    let uses = uses_of(alloc, &places, weights, times.items())?;
    Ok(WorkTimes {
        cut,
        items: OriginalTimes::from_vec(uses),
    })
}

/// The weight in this place; 0 where there is none.
fn weight_at(weights: &[Frac], place: usize) -> Frac
    ensures { result ≡ get_or weights.now place none }
{
    if place < weights.len() {
        weights[place]
    } else {
        Frac::whole(0)
    }
}

/// What the equalities sum up to: the form that the weighted forms have in the coordinates of the frame, carried back, less the
/// weighted forms.
fn rest_form(
    alloc: Global,
    frame: &Frame,
    forms: &Grid<Work, i128>,
    weights: &[Frac],
) -> Result<Vec<Frac>, LiftStop>
    requires width { forms.now.width ≡ columns_of frame.now }
    requires as_many { length weights.now ≡ forms.now.rows }
    ensures value { IfOk result (λ rest. rest.items ≡ rest_form frame.now (rows_in forms.now) weights.now) }
    ensures length { IfOk result (λ rest. length rest.items ≡ columns_of frame.now) }
    ensures shaped { OnOk result (IsShaped frame.now) }
    ensures in_range { OnOk result (RestStays frame.now (rows_in forms.now) weights.now) }
    ensures stop { IfErr result (StopsUnless (RestStays frame.now (rows_in forms.now) weights.now)) }
{
    let mut sum = vec![in alloc; Frac::whole(0); forms.width()]?;
    add_multiples(&mut sum, weights, forms)?;
    let mut left = vec![in alloc; Frac::whole(0); frame.dimension()]?;
    add_multiples(&mut left, &sum, frame.to_work().lines())?;
    let mut rest = vec![in alloc; Frac::whole(0); forms.width()]?;
    add_multiples(&mut rest, &left, frame.back())?;
    let turned = negated(alloc, weights)?;
    add_multiples(&mut rest, &turned, forms)?;
    Ok(rest)
}

/// The multipliers by which the equalities of a node sum up to a row.
fn equality_times(
    alloc: Global,
    rows: &WorkRows,
    path: &Path,
    row: Vec<Frac>,
) -> Result<Sequence<Frac>, LiftStop>
    requires width { length row.items ≡ length rows.now.rows.box }
    requires short { length path.now ≤ LONGEST_PATH }
    ensures value { IfOk result (λ times. times ≡ lifted (equality_forms rows.now path.now) row.items) }
    ensures sums { IfOk result (λ times. (m : List ℚ) → SumsTo (equality_forms rows.now path.now) row.items m → SumsTo (equality_forms rows.now path.now) row.items times) }
    ensures dense { OnOk result (HasWidth (length rows.now.rows.box) (equality_forms rows.now path.now)) }
    ensures in_range { OnOk result (LiftStays (equality_forms rows.now path.now) row.items) }
    ensures stop { IfErr result (StopsUnless (LiftStays (equality_forms rows.now path.now) row.items)) }
{
    let equalities = node_equalities(alloc, rows, path)?;
    let forms = equality_grid(alloc, equalities.items(), rows.columns())?;
    lift_row(alloc, &forms, row)
}
