//! The system of a node in the coordinates of a frame.
ghost use Rattle.std.specs.Prelude.{◌≡◌, ◌+◌, ◌*◌, ◌≤◌, ◌^◌, ◌↔◌, length, IfErr, IfOk, OnOk, IsTrue, SomeIff, ◌-ℤ◌};
ghost use Rattle.std.specs.List.{All};
ghost use Rattle.frac128.specs.Range.{IsNarrow};
ghost use Rattle.reformulate.specs.Substitutions.{columns_of, dimension_of};
ghost use Rattle.spaces.specs.Stops.{StopsUnless};
ghost use Rattle.farkas_lift.specs.NodeSides.{inequality_of};
ghost use Rattle.farkas_lift.specs.NodeSystem.{node_system, pulled, IsSystemOf, LimitFits, SideStays, SystemStays};
ghost use Rattle.farkas_lift.specs.NodeSides.{IsThere};

use crate::side::{NodeSide, node_sides, side_factors, side_limit};
use lp_dict::{Limits, System};
use presolve_map::WorkRows;
use reformulate::Frame;
use spaces::{Form, Grid, Kernel, MapStop};
use std::alloc::Global;

/// An inequality in the coordinates of a frame: the form is at most the limit.
#[derive(Debug, Drop)]
pub(crate) struct KernelSide {
    pub(crate) form: Form<Kernel>,
    pub(crate) limit: i128,
}

/// The inequalities of a node that are none of its equalities, in the coordinates of a frame: for an inequality a x <= b of the
/// points x = x0 + K y the inequality (a K) y <= b - a x0.
///
/// In order: the work rows with different sides, each by its upper and then its lower side, where it is there; the work columns,
/// each by its upper and then its lower bound; the cut, where there is one. `Wide` comes exactly where a product, or a sum of
/// products in index order, leaves `i128`, or an entry is -2^127, which is no numerator of a fraction.
pub fn kernel_system(
    alloc: Global,
    frame: &Frame,
    rows: &WorkRows,
    cut: Option<i128>,
) -> Result<System, MapStop>
    requires { columns_of frame.now ≡ length rows.now.rows.box }
    ensures system { IfOk result (IsSystemOf (dimension_of frame.now) (node_system frame.now rows.now cut)) }
    ensures narrow_rows { IfOk result (λ system. All IsNarrow system.rows.items) }
    ensures narrow_limits { IfOk result (λ system. All IsNarrow system.limits) }
    ensures size { IfOk result (λ system. (system.rows.rows + 1) * (system.rows.width + 1) ≤ 2 ^ 31) }
    ensures in_range { OnOk result (SystemStays frame.now rows.now cut) }
    ensures stop { IfErr result (StopsUnless (SystemStays frame.now rows.now cut)) }
{
    let sides = node_sides(alloc, rows, cut.is_some())?;
    let mut grid = Grid::filled(alloc, sides.len(), frame.dimension(), 0)?;
    let mut limits = Vec::with_capacity(alloc, sides.len())?;
    let value = cut.unwrap_or(0);
    for k in 0..sides.len() {
        let side = kernel_side(alloc, frame, rows, value, sides[k])?;
        grid.row_mut(k).copy_from_slice(side.form.items());
        limits.push(side.limit)?;
    }
    Ok(System {
        rows: grid,
        limits: Limits::from_vec(limits),
    })
}

/// One of them.
fn kernel_side(
    alloc: Global,
    frame: &Frame,
    rows: &WorkRows,
    value: i128,
    side: NodeSide,
) -> Result<KernelSide, MapStop>
    requires columns { columns_of frame.now ≡ length rows.now.rows.box }
    requires there { IsThere rows.now side }
    ensures form { IfOk result (λ one. one.form ≡ (pulled frame.now.to_work (inequality_of rows.now value side)).factors) }
    ensures limit { IfOk result (λ one. one.limit ≡ (pulled frame.now.to_work (inequality_of rows.now value side)).limit) }
    ensures width { IfOk result (λ one. length one.form ≡ dimension_of frame.now) }
    ensures in_range { OnOk result (LimitFits rows.now value side × SideStays frame.now.to_work (inequality_of rows.now value side)) }
    ensures stop { IfErr result (StopsUnless (LimitFits rows.now value side × SideStays frame.now.to_work (inequality_of rows.now value side))) }
{
    let Some(side_limit) = side_limit(rows, value, side) else {
        return Err(MapStop::Wide);
    };
    let factors = Form::of(side_factors(alloc, rows, side)?);
    let moved = frame.to_work().pull_back(alloc, &factors)?;
    let Some(limit) = narrow_difference(side_limit, moved.constant) else {
        return Err(MapStop::Wide);
    };
    if !are_narrow(moved.form.items()) {
        return Err(MapStop::Wide);
    }
    Ok(KernelSide {
        form: moved.form,
        limit,
    })
}

/// The difference, where its size is at most 2^127 - 1.
fn narrow_difference(a: i128, b: i128) -> Option<i128>
    ensures { SomeIff result (IsNarrow (a -ℤ b)) (a -ℤ b) }
{
    let difference = a.checked_sub(b)?;
    if is_narrow(difference) {
        Some(difference)
    } else {
        None
    }
}

/// Whether the size is at most 2^127 - 1.
fn is_narrow(number: i128) -> bool
    ensures { IsTrue result ↔ IsNarrow number }
{
    number != i128::MIN
}

/// Whether each size is at most 2^127 - 1.
fn are_narrow(numbers: &[i128]) -> bool
    ensures { IsTrue result ↔ All IsNarrow numbers.now }
{
    numbers.iter().all(|number| is_narrow(*number))
}
