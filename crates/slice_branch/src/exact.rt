//! The move of a node with a frame in the exact way, where the fast one gives up.
ghost use Rattle.std.specs.Prelude.{◌≡◌, ◌≤◌, ◌+◌, length, IfOk};
ghost use Rattle.farkas_rows.specs.Refutes.{HasForms};
ghost use Rattle.node_regions.specs.NodeFrames.{IsNodeFrame};
ghost use Rattle.reformulate.specs.Substitutions.{dimension_of};
ghost use Rattle.slice_branch.specs.Framed.{IsTried};

use exact_nodes::{Exact, Excuse, exact_move};
use node_lines::Node;
use node_task::{OpenModel, Task};
use proof_tree::Move;
use reformulate::Frame;
use sequence::NoMemory;
use std::alloc::Global;

/// What comes of a node.
#[derive(Drop)]
pub(crate) enum Tried {
    /// Its move.
    Moved(Move),
    /// Why it has none along a thin direction.
    Excused(Excuse),
}

/// The move of a node by exact fractions, or its excuse in this frame.
pub(crate) fn exact_tried<'a>(
    alloc: Global,
    model: &'a OpenModel<'a>,
    task: Task<'a>,
    frame: &'a Frame,
) -> Result<Tried, NoMemory>
    requires own { model.now.rows.now ≡ task.rows.now }
    requires forms { HasForms (length task.rows.now.box) task.path.now }
    requires node { IsNodeFrame task.rows.now task.path.now frame.now }
    requires short { length task.path.now + dimension_of frame.now ≤ length task.rows.now.box }
    ensures { IfOk result (IsTried task.entry.rows.now task.entry.path.now task.entry.best frame.entry.now) }
{
    let node = Node {
        model: task.rows,
        work: &model.work,
        frame,
        path: task.path,
        cut: task.best,
    };
    match exact_move(alloc, &node, &model.map)? {
        Exact::Close(line) => Ok(Tried::Moved(Move::Close(line))),
        Exact::Point(point) => Ok(Tried::Moved(Move::Point(point))),
        Exact::Split(cut) => Ok(Tried::Moved(Move::Split(cut))),
        Exact::Excused(excuse) => Ok(Tried::Excused(excuse)),
    }
}
