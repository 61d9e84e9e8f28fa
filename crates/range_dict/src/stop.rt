//! Why a dictionary is given up.
use sequence::NoMemory;
use std::alloc::{AllocError, AllocFailed};
use std::error::Error;
use std::fmt;

/// Why there is no answer. The dictionary is then to be given up.
#[derive(Clone, Copy, Debug, PartialEq, Eq, Drop)]
pub enum RangeStop {
    /// A number leaves 64 bits, bounds cross, or the dictionary has no room for a further slice.
    Wide,
    /// As many steps as one program may take were taken.
    ManySteps,
    NoMemory,
}

impl fmt::Display for RangeStop {
    ghost use Rattle.std.specs.Prelude.{Some};
    ghost use Rattle.range_dict.specs.Stops.{range_stop_text};

    ghost output = { λ stop. Some (range_stop_text stop) };

    fn fmt<W: fmt::Write>(&self, f: &mut fmt::Formatter<W>) -> fmt::Result {
        match self {
            RangeStop::Wide => f.write_str("a number is wide"),
            RangeStop::ManySteps => f.write_str("too many steps"),
            RangeStop::NoMemory => f.write_str("out of memory"),
        }
    }
}

impl Error for RangeStop {}

impl From<NoMemory> for RangeStop {
    ghost use Rattle.std.specs.Prelude.{◌≡◌};
    ghost use Rattle.range_dict.specs.declared.stop.RangeStop.TheVariants as stops;

    ghost from_gives = { λ _ stop. stop ≡ stops.NoMemory };

    fn from(_error: NoMemory) -> RangeStop {
        RangeStop::NoMemory
    }
}

impl From<AllocError> for RangeStop {
    ghost use Rattle.std.specs.Prelude.{◌≡◌};
    ghost use Rattle.range_dict.specs.declared.stop.RangeStop.TheVariants as stops;

    ghost from_gives = { λ _ stop. stop ≡ stops.NoMemory };

    fn from(_error: AllocError) -> RangeStop {
        RangeStop::NoMemory
    }
}

/// The value that found no room is dropped.
impl<T: Drop> From<AllocFailed<T>> for RangeStop {
    ghost use Rattle.std.specs.Prelude.{◌≡◌};
    ghost use Rattle.range_dict.specs.declared.stop.RangeStop.TheVariants as stops;

    ghost from_gives = { λ _ stop. stop ≡ stops.NoMemory };

    fn from(_error: AllocFailed<T>) -> RangeStop {
        RangeStop::NoMemory
    }
}
