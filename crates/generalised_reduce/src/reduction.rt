//! The reduction at hand.
ghost use Rattle.std.specs.Prelude.{◌≡◌, ◌+◌, ◌<◌, ◌≤◌, ◌^◌, ◌++◌, [], ◌∷◌, suc, length, take, IfErr, IfOk, OnOk};
ghost use Rattle.norm_gauge.specs.Widths.{polytope_of};
ghost use Rattle.unimodular_pair.specs.Gathering.{unit_vectors};
ghost use Rattle.unimodular_pair.specs.Moves.{CombinationStays, combined, exchanged};
ghost use Rattle.unimodular_pair.specs.Pairs.{AreInverse};
ghost use Rattle.unimodular_pair.specs.declared.step.Step.TheVariants.{Combine, Swap};
ghost use Rattle.generalised_reduce.specs.Halts.{HaltsAt, WhereWide};
ghost use Rattle.generalised_reduce.specs.Ready.{IsLeastWide, IsReady};
ghost use Rattle.generalised_reduce.specs.Reduced.{IsLovaszScarfReduced, forms_of};
ghost use Rattle.generalised_reduce.specs.States.{IsReducedBelow, Stands, progress};
ghost use Rattle.generalised_reduce.specs.declared.halt.Halt.{Halt};

use crate::halt::Halt;
use crate::multiples::{Kept, best_multiple, row_width};
use crate::numbers::is_thinner;
use lp_dict::System;
use norm_gauge::Gauge;
use sequence::{NoMemory, Sequence};
use std::alloc::Global;
use unimodular_pair::{Pair, Step, Steps};

/// A pair whose first matrix is under reduction, the gauges of its first rows, the moves that led to it, and how many of
/// them are swaps.
#[derive(Drop)]
pub(crate) struct Reduction {
    pub(crate) pair: Pair,
    pub(crate) gauges: Vec<Gauge>,
    pub(crate) moves: Steps,
    pub(crate) swaps: usize,
}

impl Reduction {
    /// The identity, before the first move.
    pub(crate) fn begin(alloc: Global, size: usize) -> Result<Reduction, NoMemory>
        requires { size ≤ 256 }
        ensures pair { IfOk result (λ r. r.pair ≡ unit_vectors size) }
        ensures gauges { IfOk result (λ r. r.gauges.items ≡ []) }
        ensures moves { IfOk result (λ r. r.moves ≡ []) }
        ensures swaps { IfOk result (λ r. r.swaps ≡ 0) }
    {
        Ok(Reduction {
            pair: Pair::identity(alloc, size)?,
            gauges: Vec::new(alloc),
            moves: Sequence::new(alloc),
            swaps: 0,
        })
    }

    // Finds the gauges of the first `count` rows, those that are not there.
    fn fill(&mut self, alloc: Global, system: &System, count: usize) -> Result<(), Halt>
        requires ready { IsReady system.now.rows system.now.limits }
        requires stands { Stands (polytope_of system.now.rows system.now.limits) self.old.pair self.old.gauges.items self.old.moves self.old.swaps }
        requires inside { count ≤ system.now.rows.width }
        ensures stands { OnOk result (Stands (polytope_of system.now.rows system.now.limits) self.new.pair self.new.gauges.items self.new.moves self.new.swaps) }
        ensures filled { OnOk result (count ≤ length self.new.gauges.items) }
        ensures pair { self.new.pair ≡ self.old.pair }
        ensures moves { self.new.moves ≡ self.old.moves }
        ensures swaps { self.new.swaps ≡ self.old.swaps }
        ensures halt { IfErr result (HaltsAt (polytope_of system.now.rows system.now.limits) self.new.moves self.new.pair) }
    {
        while self.gauges.len() < count {
            let gauge = row_width(alloc, system, &self.pair, self.gauges.len())?;
            self.gauges.push(gauge)?;
        }
        Ok(())
    }

    // Adds `factor` times row k to row k + 1, whose gauge and those behind it are no longer known.
    fn combine(&mut self, k: usize, factor: i128) -> Result<(), Halt>
        requires few { length self.old.pair.u ≤ 256 }
        requires inside { k + 1 < length self.old.pair.u }
        ensures pair { OnOk result (self.new.pair ≡ combined (suc k) k factor self.old.pair) }
        ensures gauges { OnOk result (self.new.gauges.items ≡ take (suc k) self.old.gauges.items) }
        ensures moves { OnOk result (self.new.moves ≡ self.old.moves ++ Combine (suc k) k factor ∷ []) }
        ensures swaps { OnOk result (self.new.swaps ≡ self.old.swaps) }
        ensures inverse { OnOk result (AreInverse (length self.old.pair.u) self.new.pair) }
        ensures wide { IfErr result (WhereWide ((self.new.pair ≡ self.old.pair) × (self.new.moves ≡ self.old.moves) × ¬ (CombinationStays (suc k) k factor self.old.pair))) }
    {
        self.pair.combine(k + 1, k, factor)?;
        self.gauges.truncate(k + 1);
        self.moves.push(Step::Combine {
            target: (k + 1) as u32,
            source: k as u32,
            factor,
        })?;
        Ok(())
    }

    // Rows k and k + 1 change places. The gauge is that of row k then; those behind it are no longer known.
    fn exchange(&mut self, k: usize, gauge: Gauge) -> Result<(), Halt>
        requires few { length self.old.pair.u ≤ 256 }
        requires inside { k + 1 < length self.old.pair.u }
        requires room { self.old.swaps < 2 ^ 32 }
        ensures pair { OnOk result (self.new.pair ≡ exchanged k (suc k) self.old.pair) }
        ensures gauges { OnOk result (self.new.gauges.items ≡ take k self.old.gauges.items ++ gauge ∷ []) }
        ensures moves { OnOk result (self.new.moves ≡ self.old.moves ++ Swap k ∷ []) }
        ensures swaps { OnOk result (self.new.swaps ≡ suc self.old.swaps) }
        ensures inverse { OnOk result (AreInverse (length self.old.pair.u) self.new.pair) }
        ensures memory { IfErr result (λ halt. halt ≡ Halt.NoMemory) }
    {
        self.pair.swap(k, k + 1);
        self.gauges.truncate(k);
        self.gauges.push(gauge)?;
        self.moves.push(Step::Swap(k as u32))?;
        self.swaps += 1;
        Ok(())
    }

    // Makes row k + 1 least wide by a multiple of row k; its gauge under the rows before row k.
    fn improve(&mut self, alloc: Global, system: &System, k: usize) -> Result<Gauge, Halt>
        requires ready { IsReady system.now.rows system.now.limits }
        requires stands { Stands (polytope_of system.now.rows system.now.limits) self.old.pair self.old.gauges.items self.old.moves self.old.swaps }
        requires inside { k + 1 < system.now.rows.width }
        ensures stands { OnOk result (Stands (polytope_of system.now.rows system.now.limits) self.new.pair self.new.gauges.items self.new.moves self.new.swaps) }
        ensures gauges { OnOk result (k < length self.new.gauges.items) }
        ensures front { OnOk result (take (suc k) (forms_of self.new.pair) ≡ take (suc k) (forms_of self.old.pair)) }
        ensures swaps { OnOk result (self.new.swaps ≡ self.old.swaps) }
        ensures least { IfOk result (IsLeastWide (polytope_of system.now.rows system.now.limits) (forms_of self.new.pair) k) }
        ensures halt { IfErr result (HaltsAt (polytope_of system.now.rows system.now.limits) self.new.moves self.new.pair) }
    {
        self.fill(alloc, system, k + 2)?;
        let Kept { factor, gauge } = best_multiple(
            alloc,
            system,
            &self.pair,
            k,
            &self.gauges[k],
            &self.gauges[k + 1],
        )?;
        if factor == 0 {
            return Ok(gauge);
        }
        self.combine(k, factor)?;
        Ok(gauge)
    }

    // A turn at rows k and k + 1: the second is made least wide, and comes before the first where it is thinner. The answer is
    // the number of neighbours that are reduced then.
    fn turn(&mut self, alloc: Global, system: &System, k: usize) -> Result<usize, Halt>
        requires ready { IsReady system.now.rows system.now.limits }
        requires stands { Stands (polytope_of system.now.rows system.now.limits) self.old.pair self.old.gauges.items self.old.moves self.old.swaps }
        requires inside { k + 1 < system.now.rows.width }
        requires reduced { IsReducedBelow (polytope_of system.now.rows system.now.limits) (forms_of self.old.pair) k }
        ensures stands { OnOk result (Stands (polytope_of system.now.rows system.now.limits) self.new.pair self.new.gauges.items self.new.moves self.new.swaps) }
        ensures reduced { IfOk result (λ next. IsReducedBelow (polytope_of system.now.rows system.now.limits) (forms_of self.new.pair) next) }
        ensures inside { IfOk result (λ next. next < system.now.rows.width) }
        ensures falls { IfOk result (λ next. progress system.now.rows.width self.new.swaps next < progress system.now.rows.width self.old.swaps k) }
        ensures halt { IfErr result (HaltsAt (polytope_of system.now.rows system.now.limits) self.new.moves self.new.pair) }
    {
        let gauge = self.improve(alloc, system, k)?;
        let thinner = is_thinner(gauge.value, self.gauges[k].value);
        if !thinner {
            return Ok(k + 1);
        }
        let size = self.pair.u().rows();
        if self.swaps == 64 * size * size {
            return Err(Halt::ManySwaps);
        }
        self.exchange(k, gauge)?;
        Ok(k.saturating_sub(1))
    }

    /// Reduces the basis, and finds the gauges of all its rows.
    pub(crate) fn run(&mut self, alloc: Global, system: &System) -> Result<(), Halt>
        requires ready { IsReady system.now.rows system.now.limits }
        requires stands { Stands (polytope_of system.now.rows system.now.limits) self.old.pair self.old.gauges.items self.old.moves self.old.swaps }
        ensures stands { OnOk result (Stands (polytope_of system.now.rows system.now.limits) self.new.pair self.new.gauges.items self.new.moves self.new.swaps) }
        ensures filled { OnOk result (system.now.rows.width ≤ length self.new.gauges.items) }
        ensures reduced { OnOk result (IsLovaszScarfReduced (polytope_of system.now.rows system.now.limits) (forms_of self.new.pair)) }
        ensures halt { IfErr result (HaltsAt (polytope_of system.now.rows system.now.limits) self.new.moves self.new.pair) }
    {
        let count = system.rows.width();
        let mut k = 0;
        while k + 1 < count {
            k = self.turn(alloc, system, k)?;
        }
        self.fill(alloc, system, count)?;
        Ok(())
    }
}
