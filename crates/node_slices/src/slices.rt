//! The frame of a slice, from that of its node.
ghost use Rattle.std.specs.Prelude.{◌≡◌, ◌⊎◌, ◌≤◌, ◌^◌, ◌-ℤ◌, List, [], get_or, length, IfErr, IfOk};
ghost use Rattle.whole_rows.specs.WholeRows.{span};
ghost use Rattle.farkas_rows.specs.declared.path.Slice.{Slice};
ghost use Rattle.spaces.specs.Maps.{pulled_constant, pulled_form};
ghost use Rattle.unimodular_pair.specs.Gathering.{common_divisor, IsGatheredPair, StopsAfter};
ghost use Rattle.unimodular_pair.specs.Pairs.{AreInverse};
ghost use Rattle.unimodular_pair.specs.declared.step.Step.{Step};
ghost use Rattle.reformulate.specs.Excuses.{StopsSo};
ghost use Rattle.reformulate.specs.Substitutions.{columns_of, IsSubstitution};
ghost use Rattle.reformulate.specs.declared.outcome.FrameExcuse.TheVariants as excuses;
ghost use Rattle.presolve_map.specs.Columns.{IsColumnMap};
ghost use Rattle.node_regions.specs.NodeFrames.{IsKeptForm};
ghost use Rattle.exact_nodes.specs.PathExcuses.{EqualityLeaves, IsExcusedSlice};
ghost use Rattle.node_slices.specs.SliceNodes.{IsSliceAnswer, IsSlicedNode};
ghost use Rattle.node_slices.specs.declared.outcome.SliceFrame.TheVariants as answers;

use crate::outcome::{SliceFrame, Sliced};
use reformulate::{Frame, FrameExcuse, FrameStop};
use sequence::{NoMemory, Sequence};
use spaces::{Affine, Form, Kernel, MapStop, Original, Pulled, Work};
use std::alloc::Global;
use unimodular_pair::{CompleteStop, Pair};
use whole_rows::DenseRows;

/// The form over the columns that presolving keeps. Since it is light, its sums over the map of presolving stay in range.
fn over_kept(
    alloc: Global,
    rows: &DenseRows,
    map: &Affine<Work, Original>,
    form: &Form<Original>,
) -> Result<Form<Work>, NoMemory>
    requires map { IsColumnMap rows.now.box map.now }
    requires kept { IsKeptForm rows.now.box form.now }
    requires light { span form.now rows.now.box ≤ 2 ^ 96 }
    ensures { IfOk result (λ work. work ≡ pulled_form map.now form.now) }
{
    match map.pull_back(alloc, form) {
        Ok(
            Pulled {
                form: work,
                constant: _constant,
            },
        ) => Ok(work),
        Err(MapStop::Wide) => unreachable!(),
        Err(MapStop::NoMemory) => Err(NoMemory),
    }
}

/// The form of a slice on the coordinates of a frame, and the value that it has there.
#[derive(Drop)]
struct Turned {
    form: Form<Kernel>,
    value: i128,
}

/// The excuse before the first step.
fn no_step(alloc: Global) -> FrameStop
    ensures { result ≡ FrameStop.Excuse (FrameExcuse.Product []) }
{
    FrameStop::Excuse(FrameExcuse::Product(Sequence::new(alloc)))
}

/// The form of a slice on the coordinates of a frame, and the value that it has there.
fn turn(alloc: Global, frame: &Frame, work: &Form<Work>, value: i128) -> Result<Turned, FrameStop>
    requires { length work.now ≡ columns_of frame.now }
    ensures form { IfOk result (λ turned. turned.form ≡ pulled_form frame.now.to_work work.now) }
    ensures value { IfOk result (λ turned. turned.value ≡ value -ℤ pulled_constant frame.now.to_work work.now) }
    ensures stop { IfErr result (StopsSo (λ excuse. (excuse ≡ excuses.Product []) × EqualityLeaves frame.now (record { form = work.now; side = value }))) }
    ensures shaped { IsSubstitution frame.now }
{
    match frame.to_work().pull_back(alloc, work) {
        Ok(Pulled { form, constant }) => match value.checked_sub(constant) {
            Some(value) => Ok(Turned { form, value }),
            None => Err(no_step(alloc)),
        },
        Err(MapStop::Wide) => Err(no_step(alloc)),
        Err(MapStop::NoMemory) => Err(FrameStop::NoMemory),
    }
}

/// A pair whose first row is the form.
fn completed(alloc: Global, form: &Form<Kernel>) -> Result<Pair, FrameStop>
    requires few { length form.now ≤ 256 }
    requires primitive { common_divisor form.now ≡ 1 }
    ensures first_row { IfOk result (λ pair. get_or pair.u 0 [] ≡ form.now) }
    ensures inverse { IfOk result (AreInverse (length form.now)) }
    ensures gathered { IfOk result (IsGatheredPair form.now) }
    ensures stop { IfErr result (StopsSo (λ excuse. (steps : List Step) × (excuse ≡ excuses.Product steps) × StopsAfter form.now steps)) }
{
    match Pair::complete(alloc, form) {
        Ok(pair) => Ok(pair),
        Err(CompleteStop::Wide(steps)) => Err(FrameStop::Excuse(FrameExcuse::Product(steps))),
        Err(CompleteStop::NoMemory) => Err(FrameStop::NoMemory),
    }
}

/// The frame of the points of a node at which the form has the value.
fn slice_of(
    alloc: Global,
    rows: &DenseRows,
    map: &Affine<Work, Original>,
    frame: &Frame,
    form: &Form<Original>,
    value: i128,
) -> Result<Sliced, FrameStop>
    requires map { IsColumnMap rows.now.box map.now }
    requires there { (path : List Slice) × IsSlicedNode rows.now frame.now form.now value path }
    ensures framed { IfOk result (λ sliced. (path : List Slice) → IsSlicedNode rows.now frame.now form.now value path → IsSliceAnswer rows.now frame.now form.now value path (answers.Framed sliced)) }
    ensures stop { IfErr result (StopsSo (λ excuse. (path : List Slice) → IsSlicedNode rows.now frame.now form.now value path → IsExcusedSlice rows.now path frame.now (record { form = form.now; beta = value }) excuse)) }
{
    let work = over_kept(alloc, rows, map, form)?;
    let turned = turn(alloc, frame, &work, value)?;
    let pair = completed(alloc, &turned.form)?;
    let slice = frame.slice(alloc, &pair, turned.value)?;
    Ok(Sliced {
        frame: slice,
        pair,
        work,
    })
}

/// The frame of the points of a node at which the form has the value. The map is that of presolving.
///
/// `Excused` comes only where a number of the next legal step of that framing leaves `i128`.
pub fn slice_frame(
    alloc: Global,
    rows: &DenseRows,
    map: &Affine<Work, Original>,
    frame: &Frame,
    form: &Form<Original>,
    value: i128,
) -> Result<SliceFrame, NoMemory>
    requires map { IsColumnMap rows.now.box map.now }
    requires there { (path : List Slice) × IsSlicedNode rows.now frame.now form.now value path }
    ensures { IfOk result (λ answer. (path : List Slice) → IsSlicedNode rows.now frame.now form.now value path → IsSliceAnswer rows.now frame.now form.now value path answer) }
{
    match slice_of(alloc, rows, map, frame, form, value) {
        Ok(sliced) => Ok(SliceFrame::Framed(sliced)),
        Err(FrameStop::Excuse(excuse)) => Ok(SliceFrame::Excused(excuse)),
        Err(FrameStop::NoMemory) => Err(NoMemory),
    }
}
