//! Why a box, a row or a cost is refused.
use std::alloc::AllocError;
use std::error::Error;
use std::fmt;

/// Why there are no rows over a box: the first column whose weight is above 2^96, by its number from 0, or want of memory.
#[derive(Clone, Copy, Debug, PartialEq, Eq, Drop)]
pub enum BoxStop {
    Heavy(u32),
    NoMemory,
}

impl fmt::Display for BoxStop {
    ghost use Rattle.std.specs.Prelude.{Some};
    ghost use Rattle.whole_rows.specs.Stops.{box_stop_text};

    ghost output = { λ stop. Some (box_stop_text stop) };

    fn fmt<W: fmt::Write>(&self, f: &mut fmt::Formatter<W>) -> fmt::Result {
        match self {
            BoxStop::Heavy(j) => write!(f, "column {j} is too heavy"),
            BoxStop::NoMemory => f.write_str("out of memory"),
        }
    }
}

impl Error for BoxStop {}

impl From<AllocError> for BoxStop {
    ghost use Rattle.std.specs.Prelude.{◌≡◌};
    ghost use Rattle.whole_rows.specs.declared.stops.BoxStop.TheVariants as stops;

    ghost from_gives = { λ _ stop. stop ≡ stops.NoMemory };

    fn from(_error: AllocError) -> BoxStop {
        BoxStop::NoMemory
    }
}

/// Why a row is refused: its weight is above 2^96, or memory ran out.
#[derive(Clone, Copy, Debug, PartialEq, Eq, Drop)]
pub enum RowStop {
    Heavy,
    NoMemory,
}

impl fmt::Display for RowStop {
    ghost use Rattle.std.specs.Prelude.{Some};
    ghost use Rattle.whole_rows.specs.Stops.{row_stop_text};

    ghost output = { λ stop. Some (row_stop_text stop) };

    fn fmt<W: fmt::Write>(&self, f: &mut fmt::Formatter<W>) -> fmt::Result {
        match self {
            RowStop::Heavy => f.write_str("the row is too heavy"),
            RowStop::NoMemory => f.write_str("out of memory"),
        }
    }
}

impl Error for RowStop {}

impl From<AllocError> for RowStop {
    ghost use Rattle.std.specs.Prelude.{◌≡◌};
    ghost use Rattle.whole_rows.specs.declared.stops.RowStop.TheVariants as stops;

    ghost from_gives = { λ _ stop. stop ≡ stops.NoMemory };

    fn from(_error: AllocError) -> RowStop {
        RowStop::NoMemory
    }
}

/// The weight of the costs, the sum of each cost's size times the reach of its column, is above 2^96.
#[derive(Clone, Copy, Debug, PartialEq, Eq, Drop)]
pub struct HeavyCost;

impl fmt::Display for HeavyCost {
    ghost use Rattle.std.specs.Prelude.{Some, codes};

    ghost output = { λ _. Some (codes "the cost is too heavy") };

    fn fmt<W: fmt::Write>(&self, f: &mut fmt::Formatter<W>) -> fmt::Result {
        f.write_str("the cost is too heavy")
    }
}

impl Error for HeavyCost {}
