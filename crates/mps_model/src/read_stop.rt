//! Why a text gave no model.
ghost use Rattle.std.specs.Prelude.{◌≡◌};
ghost use Rattle.mps_model.specs.declared.read_stop.ReadStop.TheVariants.{NoMemory as no_memory};

use crate::fault::TextFault;
use crate::line_stop::LineStop;
use sequence::NoMemory;

/// Why a text gave no model.
#[derive(Clone, Copy, Debug, Drop, PartialEq, Eq)]
pub enum ReadStop {
    /// The text has this fault, and none before it.
    Fault(TextFault),
    NoMemory,
}

impl From<NoMemory> for ReadStop {
    ghost from_gives = { λ _ stop. stop ≡ no_memory };

    fn from(_: NoMemory) -> Self {
        ReadStop::NoMemory
    }
}

impl ReadStop {
    ghost use Rattle.mps_model.specs.ReadAnswers.{stop_on};

    /// A stop at the line of this number.
    pub(crate) fn on_line(line: u32, stop: LineStop) -> ReadStop
        ensures { result ≡ stop_on line stop }
    {
        match stop {
            LineStop::Fault(kind) => ReadStop::Fault(TextFault { kind, line }),
            LineStop::NoMemory => ReadStop::NoMemory,
        }
    }
}
