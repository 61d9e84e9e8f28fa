//! Reduced bases.
ghost use Rattle.std.specs.Prelude.{◌≡◌, ◌-◌, ◌≤◌, ◌^◌, length, IfErr, IfOk};
ghost use Rattle.norm_gauge.specs.Widths.{AreNarrow, polytope_of};
ghost use Rattle.unimodular_pair.specs.Pairs.{AreInverse};
ghost use Rattle.generalised_reduce.specs.Halts.{AreMade, ThinStopIs, stop_of};
ghost use Rattle.generalised_reduce.specs.Ready.{IsReady};
ghost use Rattle.generalised_reduce.specs.Reduced.{IsLovaszScarfReduced, IsWithinFactor, form_at, forms_of};
ghost use Rattle.generalised_reduce.specs.States.{AreGauges};

use crate::answer::{ThinBasis, ThinExcuse, ThinStop};
use crate::halt::Halt;
use crate::reduction::Reduction;
use lp_dict::System;
use sequence::Sequence;
use std::alloc::Global;
use unimodular_pair::Steps;

// The answer where the reduction halts after these moves.
fn stop_after(halt: Halt, moves: Steps) -> ThinStop
    ensures { result ≡ stop_of halt moves }
{
    match halt {
        Halt::Lp(lp) => ThinStop::Excuse(ThinExcuse::Lp { moves, lp }),
        Halt::ManySwaps => ThinStop::Excuse(ThinExcuse::ManySwaps { moves }),
        Halt::Wide => ThinStop::Excuse(ThinExcuse::Wide { moves }),
        Halt::NoMemory => ThinStop::NoMemory,
    }
}

/// A reduced basis of the whole forms of `r` coordinates for the rational points of the system: the rows of the pair's first
/// matrix (Lovász and Scarf, The generalized basis reduction algorithm, Mathematics of Operations Research 17, 1992, with
/// epsilon 1/4). Beside it stand the gauges of its rows, and the moves that led to it from the identity.
///
/// `Lp` comes only where the next linear program stops, or its gauge; `ManySwaps` only after 64 r² swaps, where another is
/// due; `Wide` only where a product or entry of the form of the next width test, or of the next legal move, is above
/// 2^127 - 1 in size. The moves that each of them has are legal.
pub fn thin(alloc: Global, system: &System, r: usize) -> Result<ThinBasis, ThinStop>
    requires ready { IsReady system.now.rows system.now.limits }
    requires columns { r ≡ system.now.rows.width }
    ensures reduced { IfOk result (λ b. IsLovaszScarfReduced (polytope_of system.now.rows system.now.limits) (forms_of b.pair)) }
    ensures thin { IfOk result (λ b. IsWithinFactor (polytope_of system.now.rows system.now.limits) (4 ^ (r - 1)) (form_at (forms_of b.pair) 0)) }
    ensures gauges { IfOk result (λ b. AreGauges (polytope_of system.now.rows system.now.limits) (forms_of b.pair) b.gauges) }
    ensures count { IfOk result (λ b. length b.gauges ≡ r) }
    ensures legal { IfOk result (λ b. AreMade (polytope_of system.now.rows system.now.limits) b.moves b.pair) }
    ensures inverse { IfOk result (λ b. AreInverse r b.pair) }
    ensures narrow { IfOk result (λ b. AreNarrow b.pair.u) }
    ensures stop { IfErr result (ThinStopIs (polytope_of system.now.rows system.now.limits)) }
{
    let _size = system.rows.rows();
    let mut reduction = match Reduction::begin(alloc, r) {
        Ok(reduction) => reduction,
        Err(_none) => return Err(ThinStop::NoMemory),
    };
    match reduction.run(alloc, system) {
        Ok(()) => Ok(ThinBasis {
            pair: reduction.pair,
            gauges: Sequence::from_vec(reduction.gauges),
            moves: reduction.moves,
        }),
        Err(halt) => Err(stop_after(halt, reduction.moves)),
    }
}
