//! Slices of a frame.
ghost use Rattle.std.specs.Prelude.{◌≡◌, ◌<◌, [], length, get_or, IfErr, IfOk};
ghost use Rattle.spaces.specs.Stops.{StopsUnless};
ghost use Rattle.unimodular_pair.specs.Gathering.{IsGatheredPair};
ghost use Rattle.reformulate.specs.Excuses.{StopsSo};
ghost use Rattle.reformulate.specs.Slices.{IsApplied, IsSlice, SliceLeaves, SliceStays};
ghost use Rattle.reformulate.specs.Substitutions.{dimension_of};

use crate::frame::Frame;
use crate::matrices::{copied, without_column, without_row};
use crate::outcome::FrameStop;
use crate::products::{moved_point, product};
use crate::reducing::reduced;
use crate::taking::no_step;
use spaces::{Affine, Grid, Kernel, MapStop, Vect, Work};
use std::alloc::Global;
use unimodular_pair::Pair;

impl Frame {
    // The maps after the pair was applied to the vectors, and the first one has left: x0 has moved by `beta` times it.
    fn without_first(
        &self,
        alloc: Global,
        pair: &Pair,
        beta: i128,
    ) -> Result<(Affine<Kernel, Work>, Grid<Work, i128>), MapStop>
        requires some { 0 < dimension_of self.now }
        requires size { length pair.now.u ≡ dimension_of self.now }
        ensures ok { IfOk result (λ maps. IsApplied self.now pair.now beta maps.0 maps.1) }
        ensures stop { IfErr result (StopsUnless (SliceStays self.now pair.now beta)) }
    {
        let origin = vec![in alloc; 0i128; self.dimension()]?;
        let shift = moved_point(alloc, &origin, pair.v(), 0, beta)?;
        let vectors = without_column(alloc, pair.v(), 0)?;
        let first = Affine::<Kernel, Kernel>::of(Vect::of(shift), vectors);
        let to_work = first.compose(alloc, self.to_work())?;
        let rows = without_row(alloc, pair.u(), 0)?;
        let old = copied(alloc, self.back())?;
        let back = product(alloc, rows, old)?;
        Ok((to_work, back))
    }

    /// The frame of the points at which the first row of the pair's u, a form on the coordinates y, is `beta`.
    ///
    /// `Excuse` comes only where an entry of x0, K or V leaves `i128`, or a number of the reduction that follows; its steps
    /// are those of this reduction.
    pub fn slice(&self, alloc: Global, pair: &Pair, beta: i128) -> Result<Frame, FrameStop>
        requires some { 0 < dimension_of self.now }
        requires size { length pair.now.u ≡ dimension_of self.now }
        requires gathered { IsGatheredPair (get_or pair.now.u 0 []) pair.now }
        ensures ok { IfOk result (IsSlice self.now (get_or pair.now.u 0 []) beta) }
        ensures stop { IfErr result (StopsSo (SliceLeaves self.now pair.now beta)) }
    {
        match self.without_first(alloc, pair, beta) {
            Ok((to_work, back)) => reduced(alloc, to_work.base(), to_work.lines(), back),
            Err(MapStop::Wide) => Err(no_step(alloc)),
            Err(MapStop::NoMemory) => Err(FrameStop::NoMemory),
        }
    }
}
