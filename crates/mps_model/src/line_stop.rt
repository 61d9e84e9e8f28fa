//! Why a line of a model text is not taken.
ghost use Rattle.std.specs.Prelude.{◌≡◌};
ghost use Rattle.mps_model.specs.declared.line_stop.LineStop.TheVariants.{NoMemory as no_memory, Fault as stop_at};
ghost use Rattle.mps_model.specs.Judging.{kind_of};

use crate::fault::FaultKind;
use mps_fields::NumberFault;
use sequence::NoMemory;
use std::alloc::{AllocError, AllocFailed};

/// Why a line was not taken.
#[derive(Clone, Copy, Debug, Drop, PartialEq, Eq)]
pub(crate) enum LineStop {
    /// The line has this fault.
    Fault(FaultKind),
    NoMemory,
}

impl From<NoMemory> for LineStop {
    ghost from_gives = { λ _ stop. stop ≡ no_memory };

    fn from(_: NoMemory) -> Self {
        LineStop::NoMemory
    }
}

impl From<AllocError> for LineStop {
    ghost from_gives = { λ _ stop. stop ≡ no_memory };

    fn from(_: AllocError) -> Self {
        LineStop::NoMemory
    }
}

impl<T: Drop> From<AllocFailed<T>> for LineStop {
    ghost from_gives = { λ _ stop. stop ≡ no_memory };

    fn from(_: AllocFailed<T>) -> Self {
        LineStop::NoMemory
    }
}

impl From<NumberFault> for LineStop {
    ghost from_gives = { λ fault stop. stop ≡ stop_at (kind_of fault) };

    fn from(fault: NumberFault) -> Self {
        LineStop::Fault(match fault {
            NumberFault::NotNumber => FaultKind::NotNumber,
            NumberFault::WideNumber => FaultKind::WideNumber,
        })
    }
}
