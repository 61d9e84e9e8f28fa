//! The answers.
use generalised_reduce::{ThinExcuse, ThinStop};
use lp_solve::LpExcuse;
use norm_gauge::Gauge;
use sequence::NoMemory;
use spaces::{Form, Kernel};

/// A form, and its width under no rows with what shows it.
#[derive(Debug, Drop)]
pub struct ThinForm {
    pub form: Form<Kernel>,
    pub gauge: Gauge,
}

/// Why no form was chosen.
#[derive(Debug, Drop)]
pub enum ThinFormStop {
    /// The reduction of the basis stops.
    Thin(ThinExcuse),
    /// A linear program of the width of this form, a free column made primitive, stops, or its gauge is wide.
    Column { form: Form<Kernel>, lp: LpExcuse },
    /// The system gave no memory.
    NoMemory,
}

impl From<ThinStop> for ThinFormStop {
    ghost use Rattle.std.specs.Prelude.{◌≡◌};
    ghost use Rattle.thin_forms.specs.Stops.{form_stop_of};

    ghost from_gives = { λ stop other. other ≡ form_stop_of stop };

    fn from(stop: ThinStop) -> ThinFormStop {
        match stop {
            ThinStop::Excuse(excuse) => ThinFormStop::Thin(excuse),
            ThinStop::NoMemory => ThinFormStop::NoMemory,
        }
    }
}

impl From<NoMemory> for ThinFormStop {
    ghost use Rattle.std.specs.Prelude.{◌≡◌};
    ghost use Rattle.thin_forms.specs.declared.answer.ThinFormStop.TheVariants as stops;

    ghost from_gives = { λ _ stop. stop ≡ stops.NoMemory };

    fn from(_error: NoMemory) -> ThinFormStop {
        ThinFormStop::NoMemory
    }
}
