//! The reduction of a basis.
ghost use Rattle.std.specs.Prelude.{◌≡◌, ◌≤◌, [], length, IfErr, IfOk};
ghost use Rattle.exact_math.specs.Ring.{integers};
ghost use Rattle.exact_vectors.specs.Matrices.{times_matrix};
ghost use Rattle.gram_minors.specs.Orthogonalisation.{IsIndependent, IsLovaszReduced, rational_rows};
ghost use Rattle.lattice_reduce.specs.Numbers.{items_of};
ghost use Rattle.lattice_reduce.specs.Reductions.{pair_behind, Reduces};
ghost use Rattle.lattice_reduce.specs.States.{SettledTo};
ghost use Rattle.lattice_reduce.specs.Stops.{StopsSo};
ghost use Rattle.spaces.specs.Tables.{rows_in};
ghost use Rattle.unimodular_pair.specs.Gathering.{unit_vectors};

use crate::copies::copied;
use crate::reduction::{Halt, Reduction};
use sequence::{NoMemory, Sequence};
use spaces::{Grid, Space};
use std::alloc::Global;
use unimodular_pair::{Pair, Steps};

/// A reduced basis, the pair whose first matrix takes the old basis to it, and the steps that led to it.
#[derive(Drop)]
pub struct Reduced<S: Space> {
    pub basis: Grid<S, i128>,
    pub pair: Pair,
    pub steps: Steps,
}

/// The steps after which a whole number of the reduction leaves `i128`.
#[derive(Drop)]
pub struct ReduceExcuse {
    pub steps: Steps,
}

/// Why there is no reduced basis.
#[derive(Drop)]
pub enum ReduceStop {
    Excuse(ReduceExcuse),
    NoMemory,
}

impl From<NoMemory> for ReduceStop {
    ghost use Rattle.lattice_reduce.specs.declared.lattice.ReduceStop.{ReduceStop};

    ghost from_gives = { λ _ stop. stop ≡ ReduceStop.NoMemory };

    fn from(_error: NoMemory) -> ReduceStop {
        ReduceStop::NoMemory
    }
}

// The reduction of this basis before its first step.
fn begun<S: Space>(alloc: Global, basis: &Grid<S, i128>) -> Result<Reduction<S>, NoMemory>
    requires few { basis.now.rows ≤ 256 }
    requires independent { IsIndependent integers basis.now.width (items_of (rows_in basis.now)) basis.now.rows }
    ensures settled { IfOk result (λ r. SettledTo r.basis r.numbers 0) }
    ensures height { IfOk result (λ r. r.basis.rows ≡ basis.now.rows) }
    ensures width { IfOk result (λ r. r.basis.width ≡ basis.now.width) }
    ensures rows { IfOk result (λ r. rows_in r.basis ≡ rows_in basis.now) }
    ensures pair { IfOk result (λ r. r.pair ≡ unit_vectors basis.now.rows) }
    ensures size { IfOk result (λ r. length r.pair.u ≡ basis.now.rows) }
    ensures steps { IfOk result (λ r. r.steps ≡ []) }
{
    let count = basis.rows();
    let copy = copied(alloc, basis)?;
    let pair = Pair::identity(alloc, count)?;
    let numbers = Grid::filled(alloc, count + 1, count, 0)?;
    Ok(Reduction {
        basis: copy,
        pair,
        steps: Sequence::new(alloc),
        numbers,
    })
}

/// The reduction of this basis with all its steps done.
pub(crate) fn reduction_of<S: Space>(
    alloc: Global,
    basis: &Grid<S, i128>,
) -> Result<Reduction<S>, ReduceStop>
    requires few { basis.now.rows ≤ 256 }
    requires independent { IsIndependent integers basis.now.width (items_of (rows_in basis.now)) basis.now.rows }
    ensures settled { IfOk result (λ r. SettledTo r.basis r.numbers basis.now.rows) }
    ensures legal { IfOk result (λ r. Reduces basis.now.width (rows_in basis.now) r.steps (rows_in r.basis)) }
    ensures pair { IfOk result (λ r. r.pair ≡ pair_behind (unit_vectors basis.now.rows) r.steps) }
    ensures height { IfOk result (λ r. r.basis.rows ≡ basis.now.rows) }
    ensures width { IfOk result (λ r. r.basis.width ≡ basis.now.width) }
    ensures stop { IfErr result (λ stop. StopsSo basis.now.width (rows_in basis.now) stop) }
{
    let mut reduction = begun(alloc, basis)?;
    match reduction.run() {
        Ok(()) => Ok(reduction),
        Err(Halt::Wide) => Err(ReduceStop::Excuse(ReduceExcuse {
            steps: reduction.steps,
        })),
        Err(Halt::NoMemory) => Err(ReduceStop::NoMemory),
    }
}

/// A reduced basis of the lattice that the rows span (Lenstra, Lenstra, Lovász 1982), by whole numbers alone (de Weger
/// 1989).
///
/// `Excuse` comes only where its steps are legal, and a whole number of the reduction leaves `i128` after them.
pub fn reduce<S: Space>(alloc: Global, basis: &Grid<S, i128>) -> Result<Reduced<S>, ReduceStop>
    requires few { basis.now.rows ≤ 256 }
    requires independent { IsIndependent integers basis.now.width (items_of (rows_in basis.now)) basis.now.rows }
    ensures reduced { IfOk result (λ r. IsLovaszReduced basis.now.width (rational_rows (items_of (rows_in r.basis))) basis.now.rows) }
    ensures legal { IfOk result (λ r. Reduces basis.now.width (rows_in basis.now) r.steps (rows_in r.basis)) }
    ensures pair { IfOk result (λ r. r.pair ≡ pair_behind (unit_vectors basis.now.rows) r.steps) }
    ensures product { IfOk result (λ r. rows_in r.basis ≡ times_matrix integers basis.now.width r.pair.u (rows_in basis.now)) }
    ensures height { IfOk result (λ r. r.basis.rows ≡ basis.now.rows) }
    ensures width { IfOk result (λ r. r.basis.width ≡ basis.now.width) }
    ensures stop { IfErr result (λ stop. StopsSo basis.now.width (rows_in basis.now) stop) }
{
    let _size = basis.rows();
    let reduction = reduction_of(alloc, basis)?;
    Ok(Reduced {
        basis: reduction.basis,
        pair: reduction.pair,
        steps: reduction.steps,
    })
}
