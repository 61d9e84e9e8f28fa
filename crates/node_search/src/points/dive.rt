//! The look for a better point of a node before it is split: depth first along the coordinates of its frame, next to vertices.
ghost use Rattle.std.specs.Prelude.{◌≡◌, length, IfOk, IfSome};
ghost use Rattle.farkas_rows.specs.Refutes.{HasForms};
ghost use Rattle.proof_tree.specs.Moves.{Improves};

use crate::directions::ends::{Direction, measured};
use crate::directions::seen::{Seen, value_at};
use crate::directions::thin::Thin;
use crate::halt::{Halt, passed_over};
use crate::model::{has_costs, lifted};
use crate::numbers::around::Nearest;
use crate::points::near::near;
use crate::programs::parts::part_at;
use node_task::{OpenModel, Task};
use range_dict::{RangeDict, Vertex};
use spaces::{Original, Vect};
use std::alloc::Global;

/// How many values of a coordinate are tried at most.
const MOST_VALUES: usize = 4;

/// A node that is looked through for a better point.
#[derive(Clone, Copy, Drop)]
pub(crate) struct Look<'a> {
    pub(crate) model: &'a OpenModel<'a>,
    pub(crate) task: Task<'a>,
    pub(crate) thin: Thin<'a>,
}

/// The values of a direction's slices, those next to a vertex first.
fn values_near(direction: &Direction, vertex: &Vertex) -> Option<Nearest> {
    let value = value_at(direction.form.items(), vertex)?;
    Nearest::to(value, vertex.denominator, direction.lo, direction.last()?)
}

/// A better point next to a vertex of a part, or below it, where the coordinates from `level` on are fixed; `left`
/// says how many parts may still be made.
fn look_below<'a>(
    alloc: Global,
    look: Look<'a>,
    dict: &mut RangeDict,
    vertex: &Vertex,
    level: usize,
    left: &mut usize,
) -> Result<Option<Vect<Original>>, Halt>
    requires { HasForms (length look.task.rows.now.box) look.task.path.now }
    ensures { IfOk result (λ found. IfSome found (Improves look.entry.task.rows.now look.entry.task.best look.entry.task.path.now)) }
{
    let Look { model, task, thin } = look;
    if let Some(point) = near(alloc, model, task, thin, vertex)? {
        return Ok(Some(point));
    }
    if level == 0 || level > thin.forms.rows() || *left == 0 {
        return Ok(None);
    }
    let form = lifted(alloc, model, thin.forms.row(level - 1))?;
    let direction = measured(alloc, dict, &mut Seen::new(alloc), form)?.direction;
    let mut values = values_near(&direction, vertex).ok_or(Halt::GivesUp)?;
    for _value in 0..MOST_VALUES {
        let Some(value) = values.next() else {
            break;
        };
        if *left == 0 {
            break;
        }
        *left -= 1;
        let part = part_at(alloc, task.rows.cost(), dict, direction.form.items(), value);
        let Some(mut part) = passed_over(part)? else {
            continue;
        };
        match look_below(alloc, look, &mut part.dict, &part.vertex, level - 1, left) {
            Ok(None) | Err(Halt::GivesUp) => {}
            found => return found,
        }
    }
    Ok(None)
}

/// A better point next to a vertex of a node, where that was not tried yet, or in one of the parts of it that may still
/// be made; where none is found, no further parts are made. The dictionary stays.
pub(crate) fn look_through<'a>(
    alloc: Global,
    look: Look<'a>,
    dict: &RangeDict,
    vertex: &Vertex,
    left: &mut usize,
) -> Result<Option<Vect<Original>>, Halt>
    requires { HasForms (length look.task.rows.now.box) look.task.path.now }
    ensures { IfOk result (λ found. IfSome found (Improves look.entry.task.rows.now look.entry.task.best look.entry.task.path.now)) }
{
    if *left == 0 {
        return if has_costs(look.task) {
            Ok(None)
        } else {
            near(alloc, look.model, look.task, look.thin, vertex)
        };
    }
    let mut trial = dict.copied(alloc)?;
    let level = look.thin.forms.rows();
    match look_below(alloc, look, &mut trial, vertex, level, left) {
        Ok(None) | Err(Halt::GivesUp) => {
            *left = 0;
            Ok(None)
        }
        found => found,
    }
}
