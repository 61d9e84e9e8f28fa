//! Why a reduction halts.
use lp_solve::{LpExcuse, LpStop};
use norm_gauge::Gauge;
use sequence::NoMemory;
use spaces::WideEntry;
use std::alloc::{AllocError, AllocFailed};

/// Why a reduction halts.
#[derive(Debug, Drop)]
pub(crate) enum Halt {
    /// A linear program stops, or its gauge is wide.
    Lp(LpExcuse),
    /// Another swap is due after as many as are made.
    ManySwaps,
    /// A number leaves its range.
    Wide,
    /// The system gave no memory.
    NoMemory,
}

impl From<LpStop> for Halt {
    ghost use Rattle.std.specs.Prelude.{◌≡◌};
    ghost use Rattle.generalised_reduce.specs.Halts.{halt_of};

    ghost from_gives = { λ stop halt. halt ≡ halt_of stop };

    fn from(stop: LpStop) -> Halt {
        match stop {
            LpStop::Excuse(excuse) => Halt::Lp(excuse),
            LpStop::NoMemory => Halt::NoMemory,
        }
    }
}

impl From<NoMemory> for Halt {
    ghost use Rattle.std.specs.Prelude.{◌≡◌};
    ghost use Rattle.generalised_reduce.specs.declared.halt.Halt.TheVariants as halts;

    ghost from_gives = { λ _ halt. halt ≡ halts.NoMemory };

    fn from(_error: NoMemory) -> Halt {
        Halt::NoMemory
    }
}

impl From<AllocError> for Halt {
    ghost use Rattle.std.specs.Prelude.{◌≡◌};
    ghost use Rattle.generalised_reduce.specs.declared.halt.Halt.TheVariants as halts;

    ghost from_gives = { λ _ halt. halt ≡ halts.NoMemory };

    fn from(_error: AllocError) -> Halt {
        Halt::NoMemory
    }
}

impl From<AllocFailed<Gauge>> for Halt {
    ghost use Rattle.std.specs.Prelude.{◌≡◌};
    ghost use Rattle.generalised_reduce.specs.declared.halt.Halt.TheVariants as halts;

    ghost from_gives = { λ _ halt. halt ≡ halts.NoMemory };

    fn from(_error: AllocFailed<Gauge>) -> Halt {
        Halt::NoMemory
    }
}

impl From<WideEntry> for Halt {
    ghost use Rattle.std.specs.Prelude.{◌≡◌};
    ghost use Rattle.generalised_reduce.specs.declared.halt.Halt.TheVariants as halts;

    ghost from_gives = { λ _ halt. halt ≡ halts.Wide };

    fn from(_error: WideEntry) -> Halt {
        Halt::Wide
    }
}
