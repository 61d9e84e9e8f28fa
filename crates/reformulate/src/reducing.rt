//! Reduced frames.
ghost use Rattle.std.specs.Prelude.{◌≡◌, ℤ, List, length, IfErr, IfOk};
ghost use Rattle.exact_math.specs.Ring.{integers};
ghost use Rattle.exact_vectors.specs.Matrices.{times_vector};
ghost use Rattle.spaces.specs.Tables.{rows_in};
ghost use Rattle.unimodular_pair.specs.Pairs.{matrices_in};
ghost use Rattle.reformulate.specs.Bases.{HoldBasis};
ghost use Rattle.reformulate.specs.Excuses.{ReducingLeaves, StopsSo};
ghost use Rattle.reformulate.specs.Framing.{IsReductionOf};

use crate::frame::Frame;
use crate::matrices::transposed;
use crate::outcome::{FrameExcuse, FrameStop};
use crate::products::product;
use lattice_reduce::{ReduceStop, reduce_beside};
use spaces::{Affine, Grid, Kernel, MapStop, Vect, Work};
use std::alloc::Global;

/// The frame of this x0, these lines of K and rows of V, with the vectors of K reduced and x0 as one more vector beside
/// them. The steps of an excuse are those of the reduction.
pub(crate) fn reduced(
    alloc: Global,
    base: &Vect<Work>,
    lines: &Grid<Kernel, i128>,
    back: Grid<Work, i128>,
) -> Result<Frame, FrameStop>
    requires shape { HoldBasis back lines.now }
    requires as_many { length base.now ≡ lines.now.rows }
    requires inverse { (y : List ℤ) → length y ≡ lines.now.width → times_vector integers (rows_in back) (times_vector integers (rows_in lines.now) y) ≡ y }
    ensures ok { IfOk result (IsReductionOf (record { base = base.now; pair = matrices_in back lines.now })) }
    ensures stop { IfErr result (StopsSo (ReducingLeaves (record { base = base.now; pair = matrices_in back lines.now }))) }
{
    let vectors = transposed::<Kernel, Work>(alloc, lines)?;
    let beside = match reduce_beside(alloc, &vectors, base) {
        Ok(beside) => beside,
        Err(ReduceStop::Excuse(excuse)) => {
            return Err(FrameStop::Excuse(FrameExcuse::Reduce(excuse)));
        }
        Err(ReduceStop::NoMemory) => return Err(FrameStop::NoMemory),
    };
    let turned = transposed::<Kernel, Kernel>(alloc, beside.pair.v())?;
    let back = match product(alloc, turned, back) {
        Ok(back) => back,
        Err(MapStop::Wide) => {
            return Err(FrameStop::Excuse(FrameExcuse::Product(beside.steps)));
        }
        Err(MapStop::NoMemory) => return Err(FrameStop::NoMemory),
    };
    let lines = transposed::<Work, Kernel>(alloc, &beside.basis)?;
    Ok(Frame::of_maps(Affine::of(beside.last, lines), back))
}
