//! Why there is no line.
use farkas_rows::LineStop;
use row_lifting::LiftStop;
use sequence::NoMemory;
use spaces::MapStop;

/// Why multipliers of a node's system make no line.
#[derive(Clone, Copy, Debug, PartialEq, Eq, Drop)]
pub enum LineHalt {
    /// A number leaves the range of `Frac` as the multipliers are carried back to the model's inequalities.
    Wide,
    /// The line weighs above 2 to the power 126.
    Heavy,
    /// The system gave no memory.
    NoMemory,
}

impl From<NoMemory> for LineHalt {
    ghost use Rattle.std.specs.Prelude.{◌≡◌};
    ghost use Rattle.node_lines.specs.declared.halt.LineHalt.TheVariants as halts;

    ghost from_gives = { λ _ halt. halt ≡ halts.NoMemory };

    fn from(_error: NoMemory) -> LineHalt {
        LineHalt::NoMemory
    }
}

impl From<LiftStop> for LineHalt {
    ghost use Rattle.std.specs.Prelude.{◌≡◌};
    ghost use Rattle.node_lines.specs.NodeLines.{halt_of_lift};

    ghost from_gives = { λ stop halt. halt ≡ halt_of_lift stop };

    fn from(error: LiftStop) -> LineHalt {
        match error {
            LiftStop::Wide => LineHalt::Wide,
            LiftStop::NoMemory => LineHalt::NoMemory,
        }
    }
}

impl From<MapStop> for LineHalt {
    ghost use Rattle.std.specs.Prelude.{◌≡◌};
    ghost use Rattle.node_lines.specs.NodeLines.{halt_of_map};

    ghost from_gives = { λ stop halt. halt ≡ halt_of_map stop };

    fn from(error: MapStop) -> LineHalt {
        match error {
            MapStop::Wide => LineHalt::Wide,
            MapStop::NoMemory => LineHalt::NoMemory,
        }
    }
}

impl From<LineStop> for LineHalt {
    ghost use Rattle.std.specs.Prelude.{◌≡◌};
    ghost use Rattle.node_lines.specs.NodeLines.{halt_of_line};

    ghost from_gives = { λ stop halt. halt ≡ halt_of_line stop };

    fn from(error: LineStop) -> LineHalt {
        match error {
            LineStop::Heavy => LineHalt::Heavy,
            LineStop::NoMemory => LineHalt::NoMemory,
        }
    }
}
