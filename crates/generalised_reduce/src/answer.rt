//! The answers.
use lp_solve::LpExcuse;
use norm_gauge::Gauge;
use sequence::Sequence;
use unimodular_pair::{Pair, Steps};

/// One gauge for each row of a basis: its width under the rows before it.
pub type Gauges = Sequence<Gauge>;

/// A reduced basis: the rows of the pair's first matrix, their gauges, and the moves that led from the identity to it.
#[derive(Debug, Drop)]
pub struct ThinBasis {
    pub pair: Pair,
    pub gauges: Gauges,
    pub moves: Steps,
}

/// Why there is no reduced basis; the moves are those that were made.
#[derive(Debug, Drop)]
pub enum ThinExcuse {
    /// A linear program of the next width test stops, or its gauge is wide.
    Lp { moves: Steps, lp: LpExcuse },
    /// These are as many swaps as are made, and another is due.
    ManySwaps { moves: Steps },
    /// A number of the next width test, or of the next move, leaves its range.
    Wide { moves: Steps },
}

/// Why a basis was not reduced.
#[derive(Debug, Drop)]
pub enum ThinStop {
    /// A number left its range, or the steps were too many.
    Excuse(ThinExcuse),
    /// The system gave no memory.
    NoMemory,
}
