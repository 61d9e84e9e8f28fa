//! Why the fast way of a node gives up.
use range_dict::RangeStop;
use reformulate::FrameStop;
use sequence::NoMemory;
use spaces::MapStop;
use std::alloc::{AllocError, AllocFailed};
use unimodular_pair::CompleteStop;

/// Why no move of a node is found in this way.
#[derive(Clone, Copy, Debug, PartialEq, Eq, Drop)]
pub enum Halt {
    /// A number leaves its range, a program takes too long, or an answer fails its check.
    GivesUp,
    /// The system gave no memory.
    NoMemory,
}

/// None in the place of what leaves its range.
pub(crate) fn passed_over<T>(found: Result<Option<T>, Halt>) -> Result<Option<T>, Halt> {
    match found {
        Err(Halt::GivesUp) => Ok(None),
        found => found,
    }
}

impl From<RangeStop> for Halt {
    fn from(stop: RangeStop) -> Halt {
        match stop {
            RangeStop::NoMemory => Halt::NoMemory,
            RangeStop::Wide | RangeStop::ManySteps => Halt::GivesUp,
        }
    }
}

impl From<MapStop> for Halt {
    fn from(stop: MapStop) -> Halt {
        match stop {
            MapStop::NoMemory => Halt::NoMemory,
            MapStop::Wide => Halt::GivesUp,
        }
    }
}

impl From<FrameStop> for Halt {
    fn from(stop: FrameStop) -> Halt {
        match stop {
            FrameStop::NoMemory => Halt::NoMemory,
            FrameStop::Excuse(_) => Halt::GivesUp,
        }
    }
}

impl From<CompleteStop> for Halt {
    fn from(stop: CompleteStop) -> Halt {
        match stop {
            CompleteStop::NoMemory => Halt::NoMemory,
            CompleteStop::Wide(_) => Halt::GivesUp,
        }
    }
}

impl From<NoMemory> for Halt {
    fn from(_error: NoMemory) -> Halt {
        Halt::NoMemory
    }
}

impl From<AllocError> for Halt {
    fn from(_error: AllocError) -> Halt {
        Halt::NoMemory
    }
}

/// The value that found no room is dropped.
impl<T: Drop> From<AllocFailed<T>> for Halt {
    fn from(_error: AllocFailed<T>) -> Halt {
        Halt::NoMemory
    }
}
