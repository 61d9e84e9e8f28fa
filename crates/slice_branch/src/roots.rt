//! The place of a root.
ghost use Rattle.std.specs.Prelude.{◌≡◌, [], length, IfOk, All};
ghost use Rattle.farkas_lift.specs.NodeEqualities.{node_equalities};
ghost use Rattle.presolve_map.specs.Roots.{IsClosedRoot};
ghost use Rattle.reformulate.specs.Frames.{IsReachedFrame};
ghost use Rattle.reformulate.specs.Gaps.{IsGap};
ghost use Rattle.reformulate.specs.Misses.{EndsInGap};
ghost use Rattle.slice_branch.specs.Places.{IsRootPlace};

use crate::place::{Node, Place, Settled, plain_place};
use exact_nodes::Excuse;
use farkas_lift::node_equalities;
use farkas_rows::{Line, Path};
use node_search::Programs;
use node_task::OpenModel;
use reformulate::{Equalities, Frame, FrameStop, Framed, Gap};
use root_gaps::{GapMove, gap_move};
use sequence::NoMemory;
use std::alloc::Global;

/// What presolving left of the rows.
#[derive(Debug, Drop)]
pub(crate) enum Root<'a> {
    Open(OpenModel<'a>),
    Closed(Line),
}

/// The equalities of a root, over the work columns.
pub(crate) fn root_equalities(alloc: Global, model: &OpenModel) -> Result<Equalities, NoMemory>
    ensures value { IfOk result (λ equalities. equalities ≡ node_equalities model.now.work []) }
    ensures dense { IfOk result (All (λ equality. length equality.form ≡ length model.now.work.rows.box)) }
{
    node_equalities(alloc, &model.work, &Path::new(alloc))
}

/// The place of a root whose equalities have a gap: it is split without a slice, or the line or the form is too heavy.
fn gap_root<'a>(alloc: Global, model: &'a OpenModel<'a>, gap: &Gap) -> Result<Place, NoMemory>
    requires open { ¬ (IsClosedRoot model.now.rows.now) }
    requires gap { IsGap (length model.now.work.rows.box) (node_equalities model.now.work []) gap.now }
    requires ends { EndsInGap (length model.now.work.rows.box) (node_equalities model.now.work []) gap.now }
    ensures { IfOk result (IsRootPlace model.now.rows.now) }
{
    match gap_move(alloc, model.rows, &model.work, &model.map, gap)? {
        GapMove::Split(cut) => Ok(Place::Settled(Settled::Gap(cut))),
        GapMove::Excused(excuse) => plain_place(alloc, excuse, 0),
    }
}

/// The place of a root with a frame of its equalities.
fn framed_root<'a>(
    alloc: Global,
    model: &'a OpenModel<'a>,
    equalities: &Equalities,
    frame: Frame,
) -> Result<Place, NoMemory>
    requires open { ¬ (IsClosedRoot model.now.rows.now) }
    requires reached { IsReachedFrame (length model.now.work.rows.box) (node_equalities model.now.work []) frame }
    ensures { IfOk result (IsRootPlace model.now.rows.now) }
{
    let programs = Programs::of_root(alloc, model.rows, equalities, &frame)?;
    Ok(Place::Framed(Node {
        frame,
        programs,
        depth: 0,
    }))
}

/// The place of a root that presolving has left open: the frame of its equalities, or the gap that they have, or else it is split
/// by single columns, since there is neither.
pub(crate) fn open_root<'a>(alloc: Global, model: &'a OpenModel<'a>) -> Result<Place, NoMemory>
    requires { ¬ (IsClosedRoot model.now.rows.now) }
    ensures { IfOk result (IsRootPlace model.now.rows.now) }
{
    let equalities = root_equalities(alloc, model)?;
    match Frame::of(alloc, model.work.columns(), &equalities) {
        Ok(Framed::Frame(frame)) => framed_root(alloc, model, &equalities, frame),
        Ok(Framed::NoIntegerPoint(gap)) => gap_root(alloc, model, &gap),
        Err(FrameStop::Excuse(excuse)) => plain_place(alloc, Excuse::Frame(excuse), 0),
        Err(FrameStop::NoMemory) => Err(NoMemory),
    }
}
