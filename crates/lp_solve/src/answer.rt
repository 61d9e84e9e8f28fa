//! The answers.

use frac128::Frac;
use sequence::{NoMemory, Sequence};

/// The coordinates of a point.
pub type Point = Sequence<Frac>;

/// Multipliers, one for each row of the system.
pub type Weights = Sequence<Frac>;

/// Pivots, each a row and a column of the dictionary in which it is made.
pub type Pivots = Sequence<(u32, u32)>;

/// The answer of a linear program.
#[derive(Debug, Drop)]
pub enum Solved {
    /// The point meets the system and has the least value, as the multipliers show.
    Least {
        point: Point,
        value: Frac,
        multipliers: Weights,
    },
    /// The system has no rational point, as the multipliers show.
    Empty {
        multipliers: Weights,
    },
}

/// The answer of a linear program, and the pivots that led to it, which are those of Bland's rule from the beginning.
#[derive(Debug, Drop)]
pub struct Ended {
    pub solved: Solved,
    pub pivots: Pivots,
}

/// Why a linear program has no answer; the pivots are those of Bland's rule, from the beginning.
#[derive(Debug, Drop)]
pub enum LpExcuse {
    /// The next pivot, in this column, is wide: at this row, or because of this row's quotient.
    WidePivot {
        pivots: Pivots,
        row: u32,
        column: u32,
    },
    /// These are 20,000 pivots, and another is due.
    ManyPivots {
        pivots: Pivots,
    },
    /// The width of a form, or one of its ends, leaves the range of `Frac`. The width of a system alone answers this.
    WideGauge {
        first: Pivots,
        second: Pivots,
    },
}

/// Why a linear program was not solved.
#[derive(Debug, Drop)]
pub enum LpStop {
    /// A number left the range, or the pivots were too many.
    Excuse(LpExcuse),
    /// The system gave no memory.
    NoMemory,
}

impl From<NoMemory> for LpStop {
    ghost use Rattle.std.specs.Prelude.{◌≡◌};
    ghost use Rattle.lp_solve.specs.declared.answer.LpStop.TheVariants as stops;

    ghost from_gives = { λ _ error. error ≡ stops.NoMemory };

    fn from(_error: NoMemory) -> LpStop {
        LpStop::NoMemory
    }
}
