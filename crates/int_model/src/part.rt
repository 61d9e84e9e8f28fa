//! The parts of a model, and which of them is the first that is too large. The last function here does nothing; its
//! contract carries the laws.
ghost use Rattle.std.specs.Prelude.{◌≡◌, ◌⊎◌};
ghost use Rattle.whole_rows.specs.WholeRows.{IsLight};
ghost use Rattle.int_model.specs.declared.model.Model.{Model};
ghost use Rattle.int_model.specs.IntegerRows.{integer_rows};
ghost use Rattle.int_model.specs.Large.{IsFirstLarge, HasNoLargePart};

use sequence::NoMemory;
use std::alloc::AllocFailed;
use std::error::Error;
use std::fmt;
use whole_rows::{BoxStop, HeavyCost, RowStop};

/// A part of a model: a column or a row by its number, from 0, or the objective.
#[derive(Clone, Copy, Debug, PartialEq, Eq, Drop)]
pub enum Part {
    Column(u32),
    Row(u32),
    Objective,
}

/// Why a model has no integer rows here: a part is too large, or memory ran out.
#[derive(Clone, Copy, Debug, PartialEq, Eq, Drop)]
pub enum RowsStop {
    Large(Part),
    NoMemory,
}

impl fmt::Display for RowsStop {
    ghost use Rattle.std.specs.Prelude.{Some};
    ghost use Rattle.int_model.specs.Stops.{stop_text};

    ghost output = { λ stop. Some (stop_text stop) };

    fn fmt<W: fmt::Write>(&self, f: &mut fmt::Formatter<W>) -> fmt::Result {
        match self {
            RowsStop::Large(Part::Column(j)) => write!(f, "column {j} is too large"),
            RowsStop::Large(Part::Row(i)) => write!(f, "row {i} is too large"),
            RowsStop::Large(Part::Objective) => write!(f, "the objective is too large"),
            RowsStop::NoMemory => write!(f, "out of memory"),
        }
    }
}

impl Error for RowsStop {}

impl From<NoMemory> for RowsStop {
    ghost use Rattle.int_model.specs.declared.part.RowsStop.TheVariants as stops;

    ghost from_gives = { λ _ stop. stop ≡ stops.NoMemory };

    fn from(_error: NoMemory) -> RowsStop {
        RowsStop::NoMemory
    }
}

impl From<BoxStop> for RowsStop {
    ghost use Rattle.int_model.specs.Stops.{rows_stop_of};

    ghost from_gives = { λ error stop. stop ≡ rows_stop_of error };

    fn from(error: BoxStop) -> RowsStop {
        match error {
            BoxStop::Heavy(j) => RowsStop::Large(Part::Column(j)),
            BoxStop::NoMemory => RowsStop::NoMemory,
        }
    }
}

/// Why one part is not taken, whichever it is.
#[derive(Clone, Copy, Debug, Drop)]
pub(crate) enum PartStop {
    Large,
    NoMemory,
}

impl PartStop {
    ghost use Rattle.int_model.specs.declared.part.PartStop.TheVariants as part_stops;
    ghost use Rattle.int_model.specs.declared.part.RowsStop.TheVariants as stops;

    /// Names the part.
    pub(crate) fn at(self, part: Part) -> RowsStop
        ensures large { self ≡ part_stops.Large → result ≡ stops.Large part }
        ensures memory { self ≡ part_stops.NoMemory → result ≡ stops.NoMemory }
    {
        match self {
            PartStop::Large => RowsStop::Large(part),
            PartStop::NoMemory => RowsStop::NoMemory,
        }
    }
}

impl From<RowStop> for PartStop {
    ghost use Rattle.int_model.specs.Stops.{part_stop_of};

    ghost from_gives = { λ error stop. stop ≡ part_stop_of error };

    fn from(error: RowStop) -> PartStop {
        match error {
            RowStop::Heavy => PartStop::Large,
            RowStop::NoMemory => PartStop::NoMemory,
        }
    }
}

impl From<HeavyCost> for PartStop {
    ghost use Rattle.int_model.specs.declared.part.PartStop.TheVariants as part_stops;

    ghost from_gives = { λ _ stop. stop ≡ part_stops.Large };

    fn from(_error: HeavyCost) -> PartStop {
        PartStop::Large
    }
}

/// The value that found no room is dropped.
impl<T: Drop> From<AllocFailed<T>> for PartStop {
    ghost use Rattle.int_model.specs.declared.part.PartStop.TheVariants as part_stops;

    ghost from_gives = { λ _ stop. stop ≡ part_stops.NoMemory };

    fn from(_error: AllocFailed<T>) -> PartStop {
        PartStop::NoMemory
    }
}

/// A model has one first large part at most, and has one or no large part. Where no part is large its integer rows are
/// light.
pub fn first_large_part_is_one()
    ensures one { (model : Model) (a b : Part) → IsFirstLarge model a → IsFirstLarge model b → a ≡ b }
    ensures found { (model : Model) → HasNoLargePart model ⊎ ((part : Part) × IsFirstLarge model part) }
    ensures light { (model : Model) → HasNoLargePart model → IsLight (integer_rows model).whole }
{}
