//! The programs of a node and of its parts, from dictionaries that are begun anew where their numbers leave 64 bits.
use crate::halt::Halt;
use node_task::Task;
use range_dict::{Met, RangeDict, RangeStop, Vertex};
use std::alloc::Global;

/// A part of a node that has a point, and a vertex of it at which the costs are least.
#[derive(Debug, Drop)]
pub(crate) struct Part {
    pub(crate) dict: RangeDict,
    pub(crate) vertex: Vertex,
}

/// The dictionary of a node without a cut, from that of the root without a pivot.
fn begun_anew(alloc: Global, task: Task<'_>) -> Result<RangeDict, Halt> {
    let mut dict = RangeDict::of(alloc, task.rows, None)?;
    for slice in task.path.items() {
        dict = dict.child(alloc, slice.form.items(), slice.beta)?;
    }
    Ok(dict)
}

/// Whether the node has a rational point that is better than the best one.
fn meet_under(alloc: Global, best: Option<i128>, dict: &mut RangeDict) -> Result<Met, RangeStop> {
    if let Some(value) = best {
        dict.set_cut(value)?;
    }
    dict.meet(alloc)
}

/// The same for a dictionary without a pivot. The cut comes last: its numbers are the largest.
fn meet_anew(alloc: Global, best: Option<i128>, dict: &mut RangeDict) -> Result<Met, Halt> {
    dict.meet(alloc)?;
    Ok(meet_under(alloc, best, dict)?)
}

/// Whether a node has a rational point that is better than the best one. Where the dictionary that its parent has left does not
/// tell, a new one does.
pub(crate) fn met(alloc: Global, task: Task<'_>, dict: &mut RangeDict) -> Result<Met, Halt> {
    match meet_under(alloc, task.best, dict) {
        Ok(met) => Ok(met),
        Err(RangeStop::NoMemory) => Err(Halt::NoMemory),
        Err(_) => {
            *dict = begun_anew(alloc, task)?;
            meet_anew(alloc, task.best, dict)
        }
    }
}

/// A vertex of a node that has a point at which the costs are least. Where there is none in 64 bits the dictionary stays.
pub(crate) fn cheapest(
    alloc: Global,
    cost: &[i128],
    dict: &mut RangeDict,
) -> Result<Option<Vertex>, Halt> {
    let mut trial = dict.copied(alloc)?;
    match trial.least(alloc, cost) {
        Ok(least) => {
            *dict = trial;
            Ok(Some(least.vertex))
        }
        Err(RangeStop::NoMemory) => Err(Halt::NoMemory),
        Err(_) => Ok(None),
    }
}

/// The part of a node in which a form has the value; none where it has no point.
pub(crate) fn part_at(
    alloc: Global,
    cost: &[i128],
    dict: &RangeDict,
    form: &[i128],
    value: i128,
) -> Result<Option<Part>, Halt> {
    let mut dict = dict.child(alloc, form, value)?;
    if let Met::Empty(_) = dict.meet(alloc)? {
        return Ok(None);
    }
    let vertex = dict.least(alloc, cost)?.vertex;
    Ok(Some(Part { dict, vertex }))
}

/// Whether a node has a rational point at which a form has the value.
fn met_below(alloc: Global, dict: &RangeDict, form: &[i128], value: i128) -> Result<Met, Halt> {
    let mut dict = dict.child(alloc, form, value)?;
    Ok(dict.meet(alloc)?)
}

/// Whether a node has a rational point at which a form has the value. Where its dictionary does not tell, a new one does.
pub(crate) fn met_at(
    alloc: Global,
    task: Task<'_>,
    dict: &RangeDict,
    form: &[i128],
    value: i128,
) -> Result<Met, Halt> {
    match met_below(alloc, dict, form, value) {
        Err(Halt::GivesUp) => {
            let anew = begun_anew(alloc, task)?;
            let mut anew = anew.child(alloc, form, value)?;
            meet_anew(alloc, task.best, &mut anew)
        }
        met => met,
    }
}
