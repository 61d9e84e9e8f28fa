//! Why a step of framing is not made.
use sequence::NoMemory;

/// Why gathering does not go on.
#[derive(Clone, Copy, Debug, PartialEq, Eq)]
pub(crate) enum Halt {
    /// A number of the next step leaves `i128`.
    Wide,
    /// The system gave no memory.
    NoMemory,
}

impl From<NoMemory> for Halt {
    ghost use Rattle.std.specs.Prelude.{◌≡◌};
    ghost use Rattle.reformulate.specs.declared.halt.Halt.TheVariants as halts;

    ghost from_gives = { λ _ error. error ≡ halts.NoMemory };

    fn from(_error: NoMemory) -> Halt {
        Halt::NoMemory
    }
}
