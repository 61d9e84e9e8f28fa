//! Whether the mean of points has room enough in each coordinate of a frame.
ghost use Rattle.std.specs.Prelude.{◌≡◌, ◌⊎◌, ℕ, ◌*◌, ◌<◌, ◌≤◌, ◌^◌, pos, ◌≤ℤ◌, ◌-ℤ◌, ◌*ℤ◌, nat_abs, length, map, is_some, All, IfOk, IfSome, IsTrue};
ghost use Rattle.exact_math.specs.Rational.{whole, ◌*ℚ◌, ◌≤ℚ◌};
ghost use Rattle.farkas_lift.specs.Joined.{joined};
ghost use Rattle.farkas_rows.specs.Inequalities.{at_least, at_most};
ghost use Rattle.farkas_lift.specs.NodeSides.{column_sides, cut_side, row_sides};
ghost use Rattle.farkas_lift.specs.NodeSystem.{cut_of};
ghost use Rattle.node_point.specs.NodePoints.{Fractions};
ghost use Rattle.node_point.specs.RationalPoints.{coordinates};
ghost use Rattle.reformulate.specs.Substitutions.{columns_of, IsSubstitution};
ghost use Rattle.shown_widths.specs.Points.{bounded, form_of, IsLeftOver};
ghost use Rattle.shown_widths.specs.Steps.{parts, width_parts, AllLeave, BothLeave, IsFactorIn, IsLightAlong, IsWideEnough, SideLeaves};

use crate::point::WorkPoint;
use crate::side::{Bound, LeftSide, slack_sum};
use farkas_lift::common_side;
use frac128::Frac;
use node_lines::Node;
use reformulate::Frame;
use sequence::NoMemory;
use spaces::{Form, MapStop};
use std::alloc::Global;

/// The parts of a unit in which slacks are counted.
const PARTS: i128 = 1 << 40;

/// The parts of a unit in which a width is counted.
const WIDTH_PARTS: i128 = 1 << 16;

/// A width in parts of a unit, and what twice the room of a mean is multiplied by where the two are compared.
#[derive(Clone, Copy, Debug, Drop)]
pub(crate) struct Width {
    pub(crate) units: i128,
    pub(crate) factor: i128,
}

/// A width and the points with whose mean's room it is compared, over the work columns.
#[derive(Clone, Copy, Drop)]
pub(crate) struct Trial<'a> {
    pub(crate) width: Width,
    pub(crate) columns: usize,
    pub(crate) points: &'a [WorkPoint],
}

/// The parts of a unit in which a width is counted, times 4^(dimension-1), or times 4^16 where the dimension is greater than 17.
pub(crate) fn factor_in(dimension: usize) -> i128
    ensures { IsFactorIn dimension result }
{
    let steps = if dimension > 16 {
        16
    } else {
        dimension.saturating_sub(1)
    };
    WIDTH_PARTS << (2 * steps)
}

/// A width in parts of a unit, rounded up; none where it is negative or leaves 128 bits.
pub(crate) fn units_of(width: &Frac) -> Option<i128>
    ensures not_negative { IfSome result (λ units. pos 0 ≤ℤ units) }
    ensures enough { IfSome result (λ units. (whole (pos width_parts) *ℚ width.now) ≤ℚ whole units) }
{
    match Frac::whole(WIDTH_PARTS).mul(width) {
        Ok(parts) => {
            let units = parts.ceil();
            if units < 0 { None } else { Some(units) }
        }
        Err(_) => None,
    }
}

/// So many times a product of two numbers, where all numbers on the way fit.
fn product(first: i128, second: i128, third: i128) -> Option<i128>
    ensures { IfSome result (λ value. value ≡ first *ℤ (second *ℤ third)) }
{
    first.checked_mul(second.checked_mul(third)?)
}

/// Whether a width is at most so many times twice the room, where the slacks come to `room` and no factor is above `reach`.
fn is_within(units: i128, factor: i128, count: i128, reach: i128, room: i128) -> bool
    ensures { IsTrue result → (units *ℤ (count *ℤ (pos parts *ℤ reach))) ≤ℤ (factor *ℤ (pos 2 *ℤ room)) }
{
    let Some(steps) = product(count, PARTS, reach) else {
        return false;
    };
    let Some(needed) = units.checked_mul(steps) else {
        return false;
    };
    match product(factor, 2, room) {
        Some(there) => needed <= there,
        None => false,
    }
}

/// Whether a form with a bound leaves room enough.
fn leaves(trial: Trial<'_>, left: LeftSide<'_>, bound: Bound, reach: i128) -> bool
    requires { IsLeftOver trial.columns left }
    ensures { IsTrue result → IsWideEnough trial.entry.width reach (map coordinates trial.entry.points.now) (bounded (form_of trial.entry.columns left.entry) bound) }
{
    match slack_sum(trial.columns, left, bound, trial.points) {
        Some(room) => {
            let Width { units, factor } = trial.width;
            let count = trial.points.len() as i128;
            room >= 0 && is_within(units, factor, count, reach, room)
        }
        None => false,
    }
}

/// Whether a form with two sides, of which each may be absent, leaves room enough at both.
fn both_leave(
    trial: Trial<'_>,
    left: LeftSide<'_>,
    low: Option<i128>,
    high: Option<i128>,
    reach: i128,
) -> bool
    requires { IsLeftOver trial.columns left }
    ensures { IsTrue result → BothLeave trial.entry.width reach (map coordinates trial.entry.points.now) (form_of trial.entry.columns left.entry) low high }
{
    if reach == 0 {
        return true;
    }
    lower_leaves(trial, left, low, reach) && upper_leaves(trial, left, high, reach)
}

/// Whether the lower side does, where it is there.
fn lower_leaves(trial: Trial<'_>, left: LeftSide<'_>, low: Option<i128>, reach: i128) -> bool
    requires { IsLeftOver trial.columns left }
    ensures { IsTrue result → IfSome low (λ side. IsWideEnough trial.entry.width reach (map coordinates trial.entry.points.now) (at_least (form_of trial.entry.columns left.entry) side)) }
{
    match low {
        Some(side) => leaves(trial, left, Bound::AtLeast(side), reach),
        None => true,
    }
}

/// Whether the upper side does, where it is there.
fn upper_leaves(trial: Trial<'_>, left: LeftSide<'_>, high: Option<i128>, reach: i128) -> bool
    requires { IsLeftOver trial.columns left }
    ensures { IsTrue result → IfSome high (λ side. IsWideEnough trial.entry.width reach (map coordinates trial.entry.points.now) (at_most (form_of trial.entry.columns left.entry) side)) }
{
    match high {
        Some(side) => leaves(trial, left, Bound::AtMost(side), reach),
        None => true,
    }
}

/// The greatest size of an entry; none where an entry has no size.
pub(crate) fn greatest_size(entries: &[i128]) -> Option<i128>
    ensures not_negative { IfSome result (λ size. pos 0 ≤ℤ size) }
    ensures most { IfSome result (λ size. All (λ entry. nat_abs entry ≤ nat_abs size) entries.now) }
{
    let Some((first, rest)) = entries.split_first() else {
        return Some(0);
    };
    let size = first.checked_abs()?;
    let others = greatest_size(rest)?;
    Some(if size > others { size } else { others })
}

/// The greatest size of a factor of a form along the vectors of a frame; none where a number leaves 128 bits.
fn reach_along(alloc: Global, frame: &Frame, factors: &[i128]) -> Result<Option<i128>, NoMemory>
    requires { length factors.now ≡ columns_of frame.now }
    ensures light { IfOk result (λ found. IfSome found (λ reach. IsLightAlong reach frame.now.to_work factors.now)) }
    ensures shaped { IsSubstitution frame.now }
{
    let map = frame.to_work();
    let form = Form::of(factors.to_vec(alloc)?);
    match map.pull_back(alloc, &form) {
        Ok(pulled) => Ok(greatest_size(pulled.form.items())),
        Err(MapStop::Wide) => Ok(None),
        Err(MapStop::NoMemory) => Err(NoMemory),
    }
}

/// Whether both sides of a work row leave room enough; a row with equal sides has none.
fn row_leaves(alloc: Global, node: Node<'_>, trial: Trial<'_>, i: usize) -> Result<bool, NoMemory>
    requires there { i < length node.work.now.rows.rows }
    requires columns { columns_of node.frame.now ≡ length node.work.now.rows.box }
    requires width { trial.columns ≡ length node.work.now.rows.box }
    ensures { IfOk result (λ shown. IsTrue shown → All (SideLeaves trial.entry.width node.entry.frame.now.to_work (map coordinates trial.entry.points.now) node.entry.work.now (cut_of node.entry.cut)) (row_sides node.entry.work.now i)) }
{
    let low = node.work.low(i);
    let high = node.work.high(i);
    if common_side(low, high).is_some() {
        return Ok(true);
    }
    let factors = node.work.row(i);
    match reach_along(alloc, node.frame, factors)? {
        Some(reach) => Ok(both_leave(trial, LeftSide::Row(factors), low, high, reach)),
        None => Ok(false),
    }
}

/// Whether the sides of each work row leave room enough.
fn rows_leave(alloc: Global, node: Node<'_>, trial: Trial<'_>) -> Result<bool, NoMemory>
    requires columns { columns_of node.frame.now ≡ length node.work.now.rows.box }
    requires width { trial.columns ≡ length node.work.now.rows.box }
    ensures { IfOk result (λ shown. IsTrue shown → All (SideLeaves trial.entry.width node.entry.frame.now.to_work (map coordinates trial.entry.points.now) node.entry.work.now (cut_of node.entry.cut)) (joined (row_sides node.entry.work.now) (length node.entry.work.now.rows.rows))) }
{
    for i in 0..node.work.rows() {
        let shown = row_leaves(alloc, node, trial, i)?;
        if !shown {
            return Ok(false);
        }
    }
    Ok(true)
}

/// Whether both bounds of a work column leave room enough.
fn column_leaves(node: Node<'_>, trial: Trial<'_>, j: usize) -> bool
    requires there { j < length node.work.now.rows.box }
    requires columns { columns_of node.frame.now ≡ length node.work.now.rows.box }
    requires width { trial.columns ≡ length node.work.now.rows.box }
    ensures { IsTrue result → All (SideLeaves trial.entry.width node.entry.frame.now.to_work (map coordinates trial.entry.points.now) node.entry.work.now (cut_of node.entry.cut)) (column_sides j) }
{
    let low = Some(node.work.box_low(j));
    let high = Some(node.work.box_high(j));
    match greatest_size(node.frame.to_work().lines().row(j)) {
        Some(reach) => both_leave(trial, LeftSide::Column(j), low, high, reach),
        None => false,
    }
}

/// Whether the bounds of each work column leave room enough.
fn columns_leave(node: Node<'_>, trial: Trial<'_>) -> bool
    requires columns { columns_of node.frame.now ≡ length node.work.now.rows.box }
    requires width { trial.columns ≡ length node.work.now.rows.box }
    ensures { IsTrue result → All (SideLeaves trial.entry.width node.entry.frame.now.to_work (map coordinates trial.entry.points.now) node.entry.work.now (cut_of node.entry.cut)) (joined column_sides (length node.entry.work.now.rows.box)) }
{
    for j in 0..trial.columns {
        let shown = column_leaves(node, trial, j);
        if !shown {
            return false;
        }
    }
    true
}

/// What the costs of the work columns come to at most below a cut.
fn cut_limit(node: Node<'_>, value: i128) -> Option<i128>
    ensures { IfSome result (λ limit. limit ≡ (value -ℤ pos 1) -ℤ node.entry.work.now.cost_constant) }
{
    value.checked_sub(1)?.checked_sub(node.work.cost_constant())
}

/// Whether the cut leaves room enough, where there is one.
fn cut_leaves(alloc: Global, node: Node<'_>, trial: Trial<'_>) -> Result<bool, NoMemory>
    requires columns { columns_of node.frame.now ≡ length node.work.now.rows.box }
    requires width { trial.columns ≡ length node.work.now.rows.box }
    ensures { IfOk result (λ shown. IsTrue shown → All (SideLeaves trial.entry.width node.entry.frame.now.to_work (map coordinates trial.entry.points.now) node.entry.work.now (cut_of node.entry.cut)) (cut_side (is_some node.entry.cut))) }
{
    let Some(value) = node.cut else {
        return Ok(true);
    };
    let Some(limit) = cut_limit(node, value) else {
        return Ok(false);
    };
    let factors = node.work.cost();
    match reach_along(alloc, node.frame, factors)? {
        Some(reach) => Ok(both_leave(trial, LeftSide::Row(factors), None, Some(limit), reach)),
        None => Ok(false),
    }
}

/// Whether each inequality of a node leaves room enough.
pub(crate) fn all_leave(alloc: Global, node: Node<'_>, trial: Trial<'_>) -> Result<bool, NoMemory>
    requires columns { columns_of node.frame.now ≡ length node.work.now.rows.box }
    requires width { trial.columns ≡ length node.work.now.rows.box }
    ensures { IfOk result (λ shown. IsTrue shown → AllLeave trial.entry.width node.entry.frame.now.to_work (map coordinates trial.entry.points.now) node.entry.work.now node.entry.cut) }
{
    if !columns_leave(node, trial) {
        return Ok(false);
    }
    if !rows_leave(alloc, node, trial)? {
        return Ok(false);
    }
    cut_leaves(alloc, node, trial)
}
