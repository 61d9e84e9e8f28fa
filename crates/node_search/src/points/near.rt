//! Better points at a vertex and next to it, each believed through its check.
ghost use Rattle.std.specs.Prelude.{◌≡◌, length, IfOk, IfSome};
ghost use Rattle.farkas_rows.specs.Refutes.{HasForms};
ghost use Rattle.proof_tree.specs.Moves.{Improves};

use crate::directions::thin::Thin;
use crate::halt::Halt;
use crate::points::rounded::{Rounding, rounded_point, shifted, whole_values};
use node_task::{OpenModel, Task, better};
use range_dict::Vertex;
use spaces::{Original, Vect};
use std::alloc::Global;

/// The point at a vertex, where it is whole and better.
pub(crate) fn whole<'a>(
    alloc: Global,
    task: Task<'a>,
    vertex: &Vertex,
) -> Result<Option<Vect<Original>>, Halt>
    requires { HasForms (length task.rows.now.box) task.path.now }
    ensures { IfOk result (λ found. IfSome found (Improves task.entry.rows.now task.entry.best task.entry.path.now)) }
{
    Ok(better(task, whole_values(alloc, vertex)?))
}

/// A better point at a vertex or next to it, where one of three ways of rounding its coordinates finds it; none where
/// numbers leave their range.
pub(crate) fn near<'a>(
    alloc: Global,
    model: &OpenModel,
    task: Task<'a>,
    thin: Thin<'_>,
    vertex: &Vertex,
) -> Result<Option<Vect<Original>>, Halt>
    requires { HasForms (length task.rows.now.box) task.path.now }
    ensures { IfOk result (λ found. IfSome found (Improves task.entry.rows.now task.entry.best task.entry.path.now)) }
{
    match next_to(alloc, model, task, thin, vertex) {
        Err(Halt::GivesUp) => Ok(None),
        found => found,
    }
}

/// The same, or that numbers leave their range.
fn next_to<'a>(
    alloc: Global,
    model: &OpenModel,
    task: Task<'a>,
    thin: Thin<'_>,
    vertex: &Vertex,
) -> Result<Option<Vect<Original>>, Halt>
    requires { HasForms (length task.rows.now.box) task.path.now }
    ensures { IfOk result (λ found. IfSome found (Improves task.entry.rows.now task.entry.best task.entry.path.now)) }
{
    if let Some(point) = whole(alloc, task, vertex)? {
        return Ok(Some(point));
    }
    let Some(values) = shifted(alloc, model, thin.frame, vertex)? else {
        return Ok(None);
    };
    for rounding in [Rounding::Nearest, Rounding::Down, Rounding::Up] {
        let point = rounded_point(alloc, model, thin, &values, vertex.denominator, rounding)?;
        if let Some(point) = better(task, point) {
            return Ok(Some(point));
        }
    }
    Ok(None)
}
