//! The place of a slice of a node with a frame.
ghost use Rattle.std.specs.Prelude.{◌≡◌, ◌≤◌, ◌+◌, List, IfOk};
ghost use Rattle.farkas_rows.specs.declared.path.Slice.{Slice};
ghost use Rattle.node_slices.specs.SliceNodes.{IsSlicedNode};
ghost use Rattle.slice_branch.specs.Places.{IsSlicePlace};

use crate::place::{Node, Place, plain_place};
use exact_nodes::Excuse;
use node_search::Sliced;
use node_slices::{SliceFrame, slice_frame};
use node_task::OpenModel;
use sequence::NoMemory;
use spaces::{Form, Original};
use std::alloc::Global;

/// The place of the slice of a node on which the form has the value.
pub(crate) fn slice_place<'a>(
    alloc: Global,
    model: &'a OpenModel<'a>,
    node: &Node,
    form: &Form<Original>,
    value: i128,
) -> Result<Place, NoMemory>
    requires depth { node.now.depth ≤ 256 }
    requires there { (path : List Slice) × IsSlicedNode model.now.rows.now node.now.frame form.now value path }
    ensures { IfOk result (λ place. (path : List Slice) → IsSlicedNode model.now.rows.now node.now.frame form.now value path → IsSlicePlace model.now.rows.now node.now path (record { form = form.now; beta = value }) place) }
{
    match slice_frame(alloc, model.rows, &model.map, &node.frame, form, value)? {
        SliceFrame::Framed(sliced) => {
            let parts = Sliced {
                form,
                value,
                work: &sliced.work,
                frame: &node.frame,
                pair: &sliced.pair,
                slice: &sliced.frame,
            };
            let programs = node.programs.of_slice(alloc, parts)?;
            Ok(Place::Framed(Node {
                frame: sliced.frame,
                programs,
                depth: node.depth + 1,
            }))
        }
        SliceFrame::Excused(excuse) => plain_place(alloc, Excuse::Frame(excuse), node.depth + 1),
    }
}
