//! Columns of two values, each of which is tried by a program of its own: where the programs of the ends leave 64 bits.
use crate::directions::ends::Direction;
use crate::directions::seen::Seen;
use crate::halt::Halt;
use crate::model::column;
use crate::programs::parts::met_at;
use farkas_rows::{Line, Use, Uses};
use node_task::{OpenModel, Task};
use range_dict::{Met, RangeDict};
use std::alloc::Global;

/// The indices by which the lines of a node use the two sides of a column, and the end of a split.
#[derive(Clone, Copy, Debug, Drop)]
struct Sides {
    upper: u32,
    lower: u32,
    end: u32,
}

/// The index of the upper side of the inequality with this number. That of the lower side is the next one.
fn upper_side(number: usize) -> Option<u32> {
    u32::try_from(number.checked_mul(2)?).ok()
}

impl Sides {
    /// Those of a column of the model at the node of the task.
    fn of(task: Task<'_>, column: u32) -> Option<Sides> {
        let rows = task.rows.rows();
        let slices = task.path.items().len();
        let upper = upper_side(rows.checked_add(column as usize)?)?;
        let end = rows.checked_add(task.rows.columns())?.checked_add(slices)?;
        Some(Sides {
            upper,
            lower: upper.checked_add(1)?,
            end: upper_side(end)?,
        })
    }

    /// The line by which a bound closes an end: each once.
    fn bound_line(self, alloc: Global, bound: u32) -> Result<Line, Halt> {
        let mut items = Uses::new(alloc);
        for index in [bound, self.end] {
            items.push(Use { index, times: 1 })?;
        }
        Ok(Line { cut: None, items })
    }

    /// The line of a slice that has no point, with the upper end in the place of the slice's lower side.
    fn end_line(self, line: Line) -> Result<Line, Halt> {
        let mut items = line.items.into_vec();
        if let Some(last) = items.pop() {
            let index = last.index.min(self.end);
            items.push(Use {
                index,
                times: last.times,
            })?;
        }
        Ok(Line {
            cut: line.cut,
            items: Uses::from_vec(items),
        })
    }
}

/// The two values of work column `j` as slices, without those that no point of the node has; none where the column has other
/// values between its bounds. The points are kept.
pub(crate) fn binary_direction(
    alloc: Global,
    model: &OpenModel,
    task: Task<'_>,
    dict: &RangeDict,
    seen: &mut Seen,
    j: usize,
) -> Result<Option<Direction>, Halt> {
    let work = &model.work;
    if j >= work.columns() || work.box_low(j).checked_add(1) != Some(work.box_high(j)) {
        return Ok(None);
    }
    let (low, high) = (work.box_low(j), work.box_high(j));
    let sides = Sides::of(task, work.original_column(j)).ok_or(Halt::GivesUp)?;
    let form = column(alloc, model, j)?;
    let first = met_at(alloc, task, dict, form.items(), low)?;
    let second = met_at(alloc, task, dict, form.items(), high)?;
    let (lo, count) = match (&first, &second) {
        (Met::Point(_), Met::Point(_)) => (low, 2),
        (Met::Point(_), Met::Empty(_)) => (low, 1),
        (Met::Empty(_), Met::Point(_)) => (high, 1),
        (Met::Empty(_), Met::Empty(_)) => (high, 0),
    };
    let below = match first {
        Met::Empty(line) => line,
        Met::Point(vertex) => {
            seen.add(vertex)?;
            sides.bound_line(alloc, sides.lower)?
        }
    };
    let above = match second {
        Met::Empty(line) => sides.end_line(line)?,
        Met::Point(vertex) => {
            seen.add(vertex)?;
            sides.bound_line(alloc, sides.upper)?
        }
    };
    Ok(Some(Direction {
        form,
        lo,
        count,
        below,
        above,
    }))
}
