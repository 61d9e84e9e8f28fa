//! Points whose mean lies in the middle of a node: the farther it is from each inequality, the wider each whole form is shown to be.
use crate::directions::seen::Seen;
use crate::directions::spread::parts_of;
use crate::directions::thin::Thin;
use crate::directions::walls::{Wall, add_slacks, walls_of};
use crate::halt::{Halt, passed_over};
use frac128::Frac;
use node_task::{OpenModel, Task};
use range_dict::{RangeDict, Vertex};
use std::alloc::Global;

/// How many points are added at most.
const MOST_ADDED: usize = 16;

/// Adds the slacks at each point to the rooms.
fn add_all_slacks(walls: &mut [Wall], points: &[Vertex]) -> Option<()> {
    for vertex in points {
        add_slacks(walls, vertex)?;
    }
    Some(())
}

/// Whether the mean of the points is nearer to a side than to another one, by their reaches.
fn is_nearer(wall: &Wall, other: &Wall) -> Option<bool> {
    let own = wall.room.checked_mul(other.reach)?;
    Some(own < other.room.checked_mul(wall.reach)?)
}

/// The side that the mean of the points is nearest to, by its reach.
fn nearest_wall(walls: &[Wall]) -> Option<&Wall> {
    let (mut best, rest) = walls.split_first()?;
    for wall in rest {
        if is_nearer(wall, best)? {
            best = wall;
        }
    }
    Some(best)
}

/// A power of four that is at most 4^(dimension-1), for a dimension above 1.
fn factor_in(dimension: usize) -> i128 {
    if dimension > 16 {
        1 << 32
    } else if dimension > 8 {
        1 << 16
    } else if dimension > 4 {
        1 << 8
    } else if dimension > 2 {
        1 << 4
    } else {
        1 << 2
    }
}

/// Whether the mean of so many points is far enough from a side to show that no whole form is much thinner than a width in parts.
fn has_room(wall: &Wall, width: i128, points: usize, dimension: usize) -> Option<bool> {
    let needed = width.checked_mul(points as i128)?.checked_mul(wall.reach)?;
    let there = wall.room.checked_mul(factor_in(dimension))?;
    Some(needed <= there.checked_mul(2)?)
}

/// The point at which the slack of a side is greatest. The dictionary stays where its numbers leave 64 bits.
fn farthest(alloc: Global, dict: &mut RangeDict, wall: &Wall) -> Result<Vertex, Halt> {
    let mut trial = dict.copied(alloc)?;
    let extreme = if wall.is_low {
        trial.greatest(alloc, wall.form.items())?
    } else {
        trial.least(alloc, wall.form.items())?
    };
    *dict = trial;
    Ok(extreme.vertex)
}

/// Adds points until their mean has room, or so many were added. The slacks of those that were seen are in the rooms.
fn add_farthest(
    alloc: Global,
    dict: &mut RangeDict,
    seen: &mut Seen,
    walls: &mut [Wall],
    width: i128,
    dimension: usize,
) -> Result<(), Halt> {
    for _point in 0..MOST_ADDED {
        let wall = nearest_wall(walls).ok_or(Halt::GivesUp)?;
        let points = seen.points().len();
        if has_room(wall, width, points, dimension).ok_or(Halt::GivesUp)? {
            break;
        }
        let vertex = farthest(alloc, dict, wall)?;
        add_slacks(walls, &vertex).ok_or(Halt::GivesUp)?;
        seen.add(vertex)?;
    }
    Ok(())
}

/// The same, from the points that were seen.
fn added(
    alloc: Global,
    model: &OpenModel,
    task: Task<'_>,
    thin: Thin<'_>,
    dict: &mut RangeDict,
    seen: &mut Seen,
    width: i128,
) -> Result<(), Halt> {
    let mut walls = walls_of(alloc, model, task, thin)?;
    add_all_slacks(&mut walls, seen.points()).ok_or(Halt::GivesUp)?;
    let dimension = thin.frame.dimension();
    add_farthest(alloc, dict, seen, &mut walls, width, dimension)
}

/// Adds points of the node to those that were seen, until their mean shows that no whole form is thinner than a direction of this
/// width over 4^(r-1), or so many were added. In one coordinate each form is a multiple of the direction.
pub(crate) fn add_middle(
    alloc: Global,
    model: &OpenModel,
    task: Task<'_>,
    thin: Thin<'_>,
    dict: &mut RangeDict,
    seen: &mut Seen,
    width: &Frac,
) -> Result<(), Halt> {
    if thin.frame.dimension() <= 1 || width.num() <= 0 {
        return Ok(());
    }
    let width = parts_of(width);
    passed_over(added(alloc, model, task, thin, dict, seen, width).map(Some))?;
    Ok(())
}
