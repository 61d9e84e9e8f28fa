//! Why a form was not completed.
use crate::step::Steps;
use sequence::NoMemory;

/// Why a form was not completed.
#[derive(Debug, Drop)]
pub enum CompleteStop {
    /// After these steps, which are legal gathering, a product or entry of the next legal step, or of the last change of
    /// sign, leaves `i128`.
    Wide(Steps),
    /// The system gave no memory.
    NoMemory,
}

impl From<NoMemory> for CompleteStop {
    ghost use Rattle.std.specs.Prelude.{◌≡◌};
    ghost use Rattle.unimodular_pair.specs.declared.stop.CompleteStop.TheVariants as stops;

    ghost from_gives = { λ _ error. error ≡ stops.NoMemory };

    fn from(_error: NoMemory) -> CompleteStop {
        CompleteStop::NoMemory
    }
}
