//! What a node keeps for its programs, and what they find.
ghost use Rattle.std.specs.Prelude.{◌≡◌, length, IfOk, IfSome};
ghost use Rattle.farkas_rows.specs.Refutes.{HasForms};
ghost use Rattle.proof_tree.specs.Moves.{Improves};
ghost use Rattle.node_search.specs.FoundPoints.{IsFound};

use crate::directions::choice::thin_direction;
use crate::directions::seen::Seen;
use crate::directions::thin::Thin;
use crate::forms::frame_forms::{own_forms, root_forms, slice_forms};
use crate::forms::short::Shortener;
use crate::found::Found;
use crate::halt::Halt;
use crate::model::has_costs;
use crate::points::dive::{Look, look_through};
use crate::points::near::{near, whole};
use crate::programs::parts::{cheapest, met};
use node_task::{OpenModel, Task};
use range_dict::{Met, RangeDict, RangeStop, Vertex};
use reformulate::{Equalities, Frame};
use sequence::NoMemory;
use spaces::{Form, Grid, Original, Vect, Work};
use std::alloc::Global;
use unimodular_pair::Pair;
use whole_rows::DenseRows;

pub(crate) mod parts;

/// How many parts of the root are looked at for a point.
const ROOT_LOOKS: usize = 1000;

/// What a node keeps for its programs: their dictionary, where it has one in whole numbers of 64 bits, and forms for the
/// coordinates of its frame. Where numbers leave their range the forms are long, and nothing else is lost.
#[derive(Debug, Drop)]
pub struct Programs {
    dict: Option<RangeDict>,
    /// Forms that have the values of the frame's coordinates, up to constants.
    forms: Grid<Work, i128>,
    short: Shortener,
    /// How many parts of the node may still be looked at for a point.
    looks: usize,
}

/// A slice of a node that has a frame.
#[derive(Clone, Copy, Drop)]
pub struct Sliced<'a> {
    /// The form of the split, and its value on the slice.
    pub form: &'a Form<Original>,
    pub value: i128,
    /// The form over the work columns.
    pub work: &'a Form<Work>,
    /// The frame of the node.
    pub frame: &'a Frame,
    /// A pair whose first row is the form over the coordinates of the frame.
    pub pair: &'a Pair,
    /// The frame of the slice.
    pub slice: &'a Frame,
}

/// The dictionary of the root, where its numbers have 64 bits.
fn root_dict(alloc: Global, rows: &DenseRows) -> Result<Option<RangeDict>, NoMemory> {
    match RangeDict::of(alloc, rows, None) {
        Ok(dict) => Ok(Some(dict)),
        Err(RangeStop::NoMemory) => Err(NoMemory),
        Err(_) => Ok(None),
    }
}

/// The dictionary of a slice, where its numbers have 64 bits.
fn slice_dict(
    alloc: Global,
    dict: &Option<RangeDict>,
    form: &[i128],
    value: i128,
) -> Result<Option<RangeDict>, NoMemory> {
    let Some(dict) = dict else {
        return Ok(None);
    };
    match dict.child(alloc, form, value) {
        Ok(child) => Ok(Some(child)),
        Err(RangeStop::NoMemory) => Err(NoMemory),
        Err(_) => Ok(None),
    }
}

/// The forms, or those of the frame itself where numbers left their range.
fn forms_or_own(
    alloc: Global,
    forms: Result<Grid<Work, i128>, Halt>,
    frame: &Frame,
) -> Result<Grid<Work, i128>, NoMemory> {
    match forms {
        Ok(forms) => Ok(forms),
        Err(Halt::NoMemory) => Err(NoMemory),
        Err(Halt::GivesUp) => own_forms(alloc, frame),
    }
}

/// A better point at a vertex before any direction is sought: the vertex itself, or where there are costs one next to it.
fn first_try(
    alloc: Global,
    model: &OpenModel,
    task: Task<'_>,
    thin: Thin<'_>,
    vertex: &Vertex,
) -> Result<Option<Vect<Original>>, Halt>
    requires { HasForms (length task.rows.now.box) task.path.now }
    ensures { IfOk result (λ found. IfSome found (Improves task.entry.rows.now task.entry.best task.entry.path.now)) }
{
    if has_costs(task) {
        near(alloc, model, task, thin, vertex)
    } else {
        whole(alloc, task, vertex)
    }
}

/// A thin direction, from the end that is nearer to the point that was seen first. Where it has more than one slice, a better
/// point is looked for before.
fn direction_or_point<'a>(
    alloc: Global,
    look: Look<'a>,
    dict: &mut RangeDict,
    mut seen: Seen,
    looks: &mut usize,
) -> Result<Found, Halt>
    requires { HasForms (length look.task.rows.now.box) look.task.path.now }
    ensures { IfOk result (IsFound look.entry.task.rows.now look.entry.task.path.now look.entry.task.best) }
{
    let Look { model, task, thin } = look;
    let Some(direction) = thin_direction(alloc, model, task, thin, dict, &mut seen)? else {
        return Err(Halt::GivesUp);
    };
    let Some(vertex) = seen.first() else {
        return Err(Halt::GivesUp);
    };
    if direction.count > 1
        && let Some(point) = look_through(alloc, look, dict, vertex, looks)?
    {
        return Ok(Found::Point(point));
    }
    let direction = direction.from_vertex(alloc, vertex)?;
    Ok(Found::Thin {
        direction,
        points: seen.into_points(),
    })
}

/// What the programs of a node find: that it is empty, or a better point, or a thin direction.
fn found_by<'a>(
    alloc: Global,
    look: Look<'a>,
    dict: &mut Option<RangeDict>,
    looks: &mut usize,
) -> Result<Found, Halt>
    requires { HasForms (length look.task.rows.now.box) look.task.path.now }
    ensures { IfOk result (IsFound look.entry.task.rows.now look.entry.task.path.now look.entry.task.best) }
{
    let Some(dict) = dict else {
        return Err(Halt::GivesUp);
    };
    let Look { model, task, thin } = look;
    let vertex = match met(alloc, task, dict)? {
        Met::Empty(line) => return Ok(Found::Empty(line)),
        Met::Point(vertex) => vertex,
    };
    let cheapest = cheapest(alloc, task.rows.cost(), dict)?;
    let place = cheapest.as_ref().unwrap_or(&vertex);
    if let Some(point) = first_try(alloc, model, task, thin, place)? {
        return Ok(Found::Point(point));
    }
    let mut seen = Seen::new(alloc);
    if let Some(cheapest) = cheapest {
        seen.add(cheapest)?;
    }
    seen.add(vertex)?;
    direction_or_point(alloc, look, dict, seen, looks)
}

impl Programs {
    /// Those of a root, with a frame of its equalities.
    pub fn of_root(
        alloc: Global,
        rows: &DenseRows,
        equalities: &Equalities,
        frame: &Frame,
    ) -> Result<Programs, NoMemory> {
        let short = Shortener::of(alloc, equalities)?;
        let forms = forms_or_own(alloc, root_forms(alloc, frame, &short), frame)?;
        Ok(Programs {
            dict: root_dict(alloc, rows)?,
            forms,
            short,
            looks: ROOT_LOOKS,
        })
    }

    /// Those of a slice of the node.
    pub fn of_slice(&self, alloc: Global, sliced: Sliced<'_>) -> Result<Programs, NoMemory> {
        let dict = slice_dict(alloc, &self.dict, sliced.form.items(), sliced.value)?;
        let short = self.short.extended(alloc, sliced.work.items())?;
        let forms = slice_forms(alloc, &self.forms, sliced, &short);
        Ok(Programs {
            dict,
            forms: forms_or_own(alloc, forms, sliced.slice)?,
            short,
            looks: self.looks,
        })
    }

    /// What the programs of the node find; `further` are forms over the work columns that may be thin.
    ///
    /// They give up where a number leaves its range, where one of them takes too long, and where no direction is found.
    pub fn find<'a>(
        &mut self,
        alloc: Global,
        model: &'a OpenModel<'a>,
        task: Task<'a>,
        frame: &'a Frame,
        further: &'a [Vec<i128>],
    ) -> Result<Found, Halt>
        requires { HasForms (length task.rows.now.box) task.path.now }
        ensures { IfOk result (IsFound task.entry.rows.now task.entry.path.now task.entry.best) }
    {
        let thin = Thin {
            frame,
            forms: &self.forms,
            short: &self.short,
            further,
        };
        let look = Look { model, task, thin };
        found_by(alloc, look, &mut self.dict, &mut self.looks)
    }
}
