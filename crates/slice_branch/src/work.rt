//! The move of a node with a frame, in the fast way: each answer of a program is believed only through its check.
ghost use Rattle.std.specs.Prelude.{◌≡◌, ◌≤◌, ◌^◌, ◌+◌, pos, length, IfOk, IfSome};
ghost use Rattle.farkas_rows.specs.Refutes.{HasForms};
ghost use Rattle.form_widths.specs.Slices.{AreSlices};
ghost use Rattle.node_point.specs.RationalPoints.{IsRationalPoint};
ghost use Rattle.node_regions.specs.NodeFrames.{IsKeptForm, IsNodeFrame};
ghost use Rattle.proof_tree.specs.Moves.{widest, SplitsUnder};
ghost use Rattle.proof_tree.specs.declared.tree.Mark.TheVariants as marks;
ghost use Rattle.reformulate.specs.Substitutions.{dimension_of};
ghost use Rattle.slice_branch.specs.Framed.{IsFramedMove};
ghost use Rattle.slice_branch.specs.SeenPoints.{ArePoints};

use crate::check::{closes_under, is_kept_form, split_of};
use crate::shown::{believed, show_ends};
use farkas_rows::{End, Line};
use node_lines::Node;
use node_point::NodePoint;
use node_search::{Direction, Found, Halt, Programs};
use node_task::{OpenModel, Task};
use proof_tree::{Cut, Move};
use range_dict::Vertex;
use reformulate::Frame;
use shown_widths::is_direction;
use std::alloc::Global;

/// The move that the line makes, where it passes its check.
fn closed<'a>(task: Task<'a>, line: Line) -> Result<Move, Halt>
    requires { HasForms (length task.rows.now.box) task.path.now }
    ensures { IfOk result (IsFramedMove task.entry.rows.now task.entry.path.now task.entry.best) }
{
    if closes_under(task.rows, task.best, task.path, &End::Absent, &line) {
        Ok(Move::Close(line))
    } else {
        Err(Halt::GivesUp)
    }
}

/// The split into the slices between the ends of a direction, where both are closed, and the points show that they are reached.
fn sliced<'a>(task: Task<'a>, most: i128, direction: Direction, points: &[NodePoint]) -> Option<Cut>
    requires forms { HasForms (length task.rows.now.box) task.path.now }
    requires most { most ≡ pos (widest task.rows.now.box + 1) }
    requires small { widest task.rows.now.box ≤ 2 ^ 97 }
    requires points { ArePoints task.rows.now task.path.now task.best points.now }
    ensures splits { IfSome result (SplitsUnder task.entry.rows.now task.entry.best task.entry.path.now) }
    ensures kept { IfSome result (λ cut. IsKeptForm task.entry.rows.now.box cut.form) }
    ensures slices { IfSome result (λ cut. AreSlices (IsRationalPoint task.entry.rows.now task.entry.path.now task.entry.best) cut.form cut.lo cut.count) }
    ensures mark { IfSome result (λ cut. cut.mark ≡ marks.Thin) }
{
    let form = direction.form.items();
    if !is_kept_form(task.rows.bounds(), form)
        || !show_ends(points, form, direction.lo, direction.count)
    {
        return None;
    }
    split_of(task.rows, task.best, task.path, most, direction)
}

/// What a node is worked with: its frame, forms that may be thin, and how many slices a split may have.
#[derive(Clone, Copy, Drop)]
pub(crate) struct Given<'a> {
    pub(crate) frame: &'a Frame,
    pub(crate) further: &'a [Vec<i128>],
    pub(crate) most: i128,
}

/// The split along a form, where it is one into exact slices, and the points show that the form is a direction of the node.
fn split<'a>(
    alloc: Global,
    model: &'a OpenModel<'a>,
    task: Task<'a>,
    given: Given<'a>,
    direction: Direction,
    seen: &[Vertex],
) -> Result<Move, Halt>
    requires own { model.now.rows.now ≡ task.rows.now }
    requires forms { HasForms (length task.rows.now.box) task.path.now }
    requires most { given.most ≡ pos (widest task.rows.now.box + 1) }
    requires small { widest task.rows.now.box ≤ 2 ^ 97 }
    requires node { IsNodeFrame task.rows.now task.path.now given.frame.now }
    requires short { length task.path.now + dimension_of given.frame.now ≤ length task.rows.now.box }
    ensures { IfOk result (IsFramedMove task.entry.rows.now task.entry.path.now task.entry.best) }
{
    let points = believed(alloc, task, seen)?;
    let Some(cut) = sliced(task, given.most, direction, &points) else {
        return Err(Halt::GivesUp);
    };
    let node = Node {
        model: task.rows,
        work: &model.work,
        frame: given.frame,
        path: task.path,
        cut: task.best,
    };
    let shown = is_direction(alloc, node, &cut, &points)?;
    if !shown {
        return Err(Halt::GivesUp);
    }
    Ok(Move::Split(cut))
}

/// The move of a node: it is closed, or a better point is found, or it is split along a thin direction.
pub(crate) fn framed_move<'a>(
    alloc: Global,
    model: &'a OpenModel<'a>,
    task: Task<'a>,
    given: Given<'a>,
    programs: &mut Programs,
) -> Result<Move, Halt>
    requires own { model.now.rows.now ≡ task.rows.now }
    requires forms { HasForms (length task.rows.now.box) task.path.now }
    requires most { given.most ≡ pos (widest task.rows.now.box + 1) }
    requires small { widest task.rows.now.box ≤ 2 ^ 97 }
    requires node { IsNodeFrame task.rows.now task.path.now given.frame.now }
    requires short { length task.path.now + dimension_of given.frame.now ≤ length task.rows.now.box }
    ensures { IfOk result (IsFramedMove task.entry.rows.now task.entry.path.now task.entry.best) }
{
    match programs.find(alloc, model, task, given.frame, given.further)? {
        Found::Empty(line) => closed(task, line),
        Found::Point(point) => Ok(Move::Point(point)),
        Found::Thin { direction, points } => split(alloc, model, task, given, direction, &points),
    }
}
