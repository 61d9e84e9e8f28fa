//! What points of a node show of a form: they are believed only as they pass the check of a node's points.
ghost use Rattle.std.specs.Prelude.{◌≡◌, length, Any, IfOk, IsTrue, OnOk};
ghost use Rattle.farkas_rows.specs.Refutes.{HasForms};
ghost use Rattle.slice_branch.specs.SeenPoints.{ArePoints, IsAtLeastAt, IsAtMostAt, ShowEnds};

use exact_vectors::dot_checked;
use node_point::NodePoint;
use node_search::Halt;
use node_task::Task;
use range_dict::Vertex;
use std::alloc::Global;

/// Those of the points that pass the check.
pub(crate) fn believed<'a>(
    alloc: Global,
    task: Task<'a>,
    seen: &[Vertex],
) -> Result<Vec<NodePoint>, Halt>
    requires { HasForms (length task.rows.now.box) task.path.now }
    ensures { IfOk result (λ points. ArePoints task.entry.rows.now task.entry.path.now task.entry.best points.items) }
{
    let mut points = Vec::new(alloc);
    for vertex in seen {
        push_believed(alloc, task, &mut points, vertex)?;
    }
    Ok(points)
}

/// Puts the point at the end, where it passes the check.
fn push_believed<'a>(
    alloc: Global,
    task: Task<'a>,
    points: &mut Vec<NodePoint>,
    vertex: &Vertex,
) -> Result<(), Halt>
    requires forms { HasForms (length task.rows.now.box) task.path.now }
    requires points { ArePoints task.rows.now task.path.now task.best points.old.items }
    ensures { OnOk result (ArePoints task.entry.rows.now task.entry.path.now task.entry.best points.new.items) }
{
    let numerators = vertex.numerators.to_vec(alloc)?;
    let denominator = vertex.denominator;
    let point = NodePoint::of(task.rows, task.path, task.best, numerators, denominator);
    if let Some(point) = point {
        points.push(point)?;
    }
    Ok(())
}

/// Whether the form is at most the number at the point, and all numbers on the way fit.
fn is_at_most_at(form: &[i128], number: i128, point: &NodePoint) -> bool
    ensures { IsTrue result → IsAtMostAt form.now number point.now }
{
    if form.len() != point.numerators().len() {
        return false;
    }
    let Some(value) = dot_checked(form, point.numerators()) else {
        return false;
    };
    match number.checked_mul(point.denominator()) {
        Some(most) => value <= most,
        None => false,
    }
}

/// Whether the form is at least the number at the point, and all numbers on the way fit.
fn is_at_least_at(form: &[i128], number: i128, point: &NodePoint) -> bool
    ensures { IsTrue result → IsAtLeastAt form.now number point.now }
{
    if form.len() != point.numerators().len() {
        return false;
    }
    let Some(value) = dot_checked(form, point.numerators()) else {
        return false;
    };
    match number.checked_mul(point.denominator()) {
        Some(least) => least <= value,
        None => false,
    }
}

/// Whether the points show that the form reaches the first and the last of `count` slices from `lo` on.
pub(crate) fn show_ends(points: &[NodePoint], form: &[i128], lo: i128, count: i128) -> bool
    ensures { IsTrue result → ShowEnds form.now lo count points.now }
{
    if count <= 0 {
        return true;
    }
    let Some(last) = lo.checked_add(count - 1) else {
        return false;
    };
    falls_to(points, form, lo) && rises_to(points, form, last)
}

/// Whether the form is at most the number at some point.
fn falls_to(points: &[NodePoint], form: &[i128], number: i128) -> bool
    ensures { IsTrue result → Any (IsAtMostAt form.now number) points.now }
{
    for point in points {
        if is_at_most_at(form, number, point) {
            return true;
        }
    }
    false
}

/// Whether the form is at least the number at some point.
fn rises_to(points: &[NodePoint], form: &[i128], number: i128) -> bool
    ensures { IsTrue result → Any (IsAtLeastAt form.now number) points.now }
{
    for point in points {
        if is_at_least_at(form, number, point) {
            return true;
        }
    }
    false
}
