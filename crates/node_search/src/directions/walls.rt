//! The sides of a node, and how far the points that were seen are from them.
use crate::directions::spread::{PARTS, parts_at};
use crate::directions::thin::Thin;
use crate::forms::frame_forms::combine;
use crate::halt::Halt;
use crate::model::{column, lifted};
use node_task::{OpenModel, Task};
use range_dict::Vertex;
use spaces::{Form, Original};
use std::alloc::Global;

/// A side of a form over all columns, with the greatest size of a factor that it has along the vectors of a frame, and what its
/// slacks at points come to, in parts.
#[derive(Debug, Drop)]
pub(crate) struct Wall {
    pub(crate) form: Form<Original>,
    /// Whether the form is at least the side, or else at most.
    pub(crate) is_low: bool,
    side: i128,
    pub(crate) reach: i128,
    pub(crate) room: i128,
}

impl Wall {
    /// The slack of the side at a point in parts, rounded down.
    fn slack_at(&self, vertex: &Vertex) -> Option<i128> {
        let value = parts_at(self.form.items(), vertex)?;
        let side = self.side.checked_mul(PARTS)?;
        if self.is_low {
            value.checked_sub(side)
        } else {
            side.checked_sub(value)?.checked_sub(1)
        }
    }
}

/// Adds the slacks at a point to the rooms.
pub(crate) fn add_slacks(walls: &mut [Wall], vertex: &Vertex) -> Option<()> {
    for wall in walls.iter_mut() {
        let slack = wall.slack_at(vertex)?;
        wall.room = wall.room.checked_add(slack)?;
    }
    Some(())
}

/// The greatest size of a factor, where each one has a size.
fn greatest_size(factors: &[i128]) -> Option<i128> {
    let mut most = 0i128;
    for factor in factors {
        most = most.max(factor.checked_abs()?);
    }
    Some(most)
}

/// The greatest size of a factor of a form over the work columns along the vectors of a frame.
fn reach_of(alloc: Global, thin: Thin<'_>, factors: &[i128]) -> Result<i128, Halt> {
    let lines = thin.frame.to_work().lines();
    let mut along = vec![in alloc; 0; lines.width()]?;
    combine(&mut along, factors, lines).ok_or(Halt::GivesUp)?;
    greatest_size(&along).ok_or(Halt::GivesUp)
}

/// Puts the sides of a form at the end, where it varies in the frame.
fn push_walls(
    alloc: Global,
    walls: &mut Vec<Wall>,
    form: &Form<Original>,
    reach: i128,
    low: Option<i128>,
    high: Option<i128>,
) -> Result<(), Halt> {
    if reach == 0 {
        return Ok(());
    }
    for (is_low, side) in [(true, low), (false, high)] {
        if let Some(side) = side {
            walls.push(Wall {
                form: Form::of(form.items().to_vec(alloc)?),
                is_low,
                side,
                reach,
                room: 0,
            })?;
        }
    }
    Ok(())
}

/// Puts the sides of the rows that are no equalities at the end.
fn push_rows(
    alloc: Global,
    model: &OpenModel,
    thin: Thin<'_>,
    walls: &mut Vec<Wall>,
) -> Result<(), Halt> {
    let work = &model.work;
    for i in 0..work.rows() {
        let (low, high) = (work.low(i), work.high(i));
        if low.is_none() || low != high {
            let reach = reach_of(alloc, thin, work.row(i))?;
            let form = lifted(alloc, model, work.row(i))?;
            push_walls(alloc, walls, &form, reach, low, high)?;
        }
    }
    Ok(())
}

/// Puts the bounds of the work columns at the end.
fn push_box(
    alloc: Global,
    model: &OpenModel,
    thin: Thin<'_>,
    walls: &mut Vec<Wall>,
) -> Result<(), Halt> {
    let work = &model.work;
    let lines = thin.frame.to_work().lines();
    for j in 0..work.columns().min(lines.rows()) {
        let reach = greatest_size(lines.row(j)).ok_or(Halt::GivesUp)?;
        let form = column(alloc, model, j)?;
        let (low, high) = (Some(work.box_low(j)), Some(work.box_high(j)));
        push_walls(alloc, walls, &form, reach, low, high)?;
    }
    Ok(())
}

/// Puts the side at the end that each better point meets, where there is a best one.
fn push_cut(
    alloc: Global,
    model: &OpenModel,
    task: Task<'_>,
    thin: Thin<'_>,
    walls: &mut Vec<Wall>,
) -> Result<(), Halt> {
    let work = &model.work;
    let Some(best) = task.best else {
        return Ok(());
    };
    let most = best
        .checked_sub(1)
        .and_then(|most| most.checked_sub(work.cost_constant()));
    let reach = reach_of(alloc, thin, work.cost())?;
    let form = lifted(alloc, model, work.cost())?;
    push_walls(alloc, walls, &form, reach, None, most)
}

/// The sides of a node: those of the rows that are no equalities, the bounds of the work columns, and the cut.
pub(crate) fn walls_of(
    alloc: Global,
    model: &OpenModel,
    task: Task<'_>,
    thin: Thin<'_>,
) -> Result<Vec<Wall>, Halt> {
    let mut walls = Vec::new(alloc);
    push_rows(alloc, model, thin, &mut walls)?;
    push_box(alloc, model, thin, &mut walls)?;
    push_cut(alloc, model, task, thin, &mut walls)?;
    Ok(walls)
}
