//! Why a column is not shown to be a direction.
use frac128::Wide;
use lp_solve::LpStop;
use sequence::NoMemory;

/// Why a step of the way was not taken.
#[derive(Clone, Copy, Debug, Drop)]
pub(crate) enum ColumnStop {
    /// A linear program stops, or a number is wide: nothing is shown.
    Unshown,
    /// The system gave no memory.
    NoMemory,
}

impl From<LpStop> for ColumnStop {
    fn from(stop: LpStop) -> ColumnStop {
        match stop {
            LpStop::Excuse(_excuse) => ColumnStop::Unshown,
            LpStop::NoMemory => ColumnStop::NoMemory,
        }
    }
}

impl From<Wide> for ColumnStop {
    fn from(_wide: Wide) -> ColumnStop {
        ColumnStop::Unshown
    }
}

impl From<NoMemory> for ColumnStop {
    fn from(_error: NoMemory) -> ColumnStop {
        ColumnStop::NoMemory
    }
}
