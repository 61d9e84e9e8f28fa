//! Slacks of inequalities at points.
ghost use Rattle.std.specs.Prelude.{◌≡◌, ◌<◌, pos, ◌*ℤ◌, ◌≤ℤ◌, ◌<ℤ◌, length, map, IfSome};
ghost use Rattle.exact_math.specs.Rational.{whole, ◌*ℚ◌, ◌≤ℚ◌};
ghost use Rattle.exact_math.specs.Ring.{integers};
ghost use Rattle.exact_math.specs.RationalRing.{rationals};
ghost use Rattle.exact_vectors.specs.Vectors.{dot, sum};
ghost use Rattle.form_widths.specs.Inequalities.{slack};
ghost use Rattle.node_point.specs.RationalPoints.{coordinates};
ghost use Rattle.shown_widths.specs.Points.{bounded, form_of, gap_of, IsLeftOver};
ghost use Rattle.shown_widths.specs.Steps.{parts};

use crate::point::WorkPoint;
use exact_vectors::dot_checked;

/// The parts of a unit in which slacks are counted.
const PARTS: i128 = 1 << 40;

/// A form over the work columns: the factors of a row, or one column.
#[derive(Clone, Copy, Debug, Drop)]
pub(crate) enum LeftSide<'a> {
    Row(&'a [i128]),
    Column(usize),
}

/// On which side of a number a form stays.
#[derive(Clone, Copy, Debug, Drop)]
pub(crate) enum Bound {
    AtMost(i128),
    AtLeast(i128),
}

/// The value of a form at a point, times its denominator, where all numbers on the way fit.
pub(crate) fn value_at(left: LeftSide<'_>, point: &WorkPoint) -> Option<i128>
    requires { IsLeftOver (length point.now.numerators) left }
    ensures { IfSome result (λ value. value ≡ dot integers (form_of (length point.now.numerators) left.entry) point.now.numerators) }
{
    match left {
        LeftSide::Row(factors) => dot_checked(factors, point.numerators()),
        LeftSide::Column(j) => Some(point.numerators()[j]),
    }
}

/// By how much a form at a point is within its bound, times the denominator.
fn gap_at(left: LeftSide<'_>, bound: Bound, point: &WorkPoint) -> Option<i128>
    requires { IsLeftOver (length point.now.numerators) left }
    ensures { IfSome result (λ gap. gap ≡ gap_of (bounded (form_of (length point.now.numerators) left.entry) bound) point.now) }
{
    let value = value_at(left, point)?;
    let denominator = point.denominator();
    match bound {
        Bound::AtMost(side) => {
            let gap = side.checked_mul(denominator)?.checked_sub(value)?;
            Some(gap)
        }
        Bound::AtLeast(side) => {
            let gap = value.checked_sub(side.checked_mul(denominator)?)?;
            Some(gap)
        }
    }
}

/// The greatest whole number that is at most a numerator over a denominator above 0.
fn floor(numerator: i128, denominator: i128) -> i128
    requires { pos 0 <ℤ denominator }
    ensures { (result *ℤ denominator) ≤ℤ numerator }
{
    numerator.div_euclid(denominator)
}

/// The slack of a form with a bound at a point, rounded down in parts of a unit.
fn slack_at(left: LeftSide<'_>, bound: Bound, point: &WorkPoint) -> Option<i128>
    requires { IsLeftOver (length point.now.numerators) left }
    ensures { IfSome result (λ amount. whole amount ≤ℚ (whole (pos parts) *ℚ slack (bounded (form_of (length point.now.numerators) left.entry) bound) (coordinates point.now))) }
{
    let denominator = point.denominator();
    if denominator <= 0 {
        return None;
    }
    let gap = gap_at(left, bound, point)?.checked_mul(PARTS)?;
    Some(floor(gap, denominator))
}

/// The sum of the slacks at the points, each rounded down in parts of a unit.
pub(crate) fn slack_sum(
    columns: usize,
    left: LeftSide<'_>,
    bound: Bound,
    points: &[WorkPoint],
) -> Option<i128>
    requires left { IsLeftOver columns left }
    ensures { IfSome result (λ amount. whole amount ≤ℚ (whole (pos parts) *ℚ sum rationals (map (slack (bounded (form_of columns left.entry) bound)) (map coordinates points.now)))) }
{
    let mut total: i128 = 0;
    for point in points {
        if point.numerators().len() != columns {
            return None;
        }
        total = total.checked_add(slack_at(left, bound, point)?)?;
    }
    Some(total)
}
