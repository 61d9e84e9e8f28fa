//! Why the exact way of a node goes no further.
use crate::excuse::Excuse;
use sequence::NoMemory;

/// Why the exact way of a node goes no further.
#[derive(Drop)]
pub(crate) enum Halt {
    /// The excuse holds of the node.
    Excused(Excuse),
    /// The system gave no memory.
    NoMemory,
}

impl From<NoMemory> for Halt {
    ghost use Rattle.std.specs.Prelude.{◌≡◌};
    ghost use Rattle.exact_nodes.specs.declared.halt.Halt.TheVariants as halts;

    ghost from_gives = { λ _ halt. halt ≡ halts.NoMemory };

    fn from(_error: NoMemory) -> Halt {
        Halt::NoMemory
    }
}
