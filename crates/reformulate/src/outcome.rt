//! The answers of framing.
use crate::frame::Frame;
use crate::gap::Gap;
use lattice_reduce::ReduceExcuse;
use sequence::NoMemory;
use std::alloc::AllocError;
use unimodular_pair::Steps;

/// What the equalities have.
#[derive(Drop)]
pub enum Framed {
    /// A frame of their integer solutions.
    Frame(Frame),
    /// No integer solution, with the times that show it.
    NoIntegerPoint(Gap),
}

/// The data of an excuse: the steps are legal, and a number of the next one leaves `i128`.
#[derive(Drop)]
pub enum FrameExcuse {
    /// A number of the reduction, whose steps these are.
    Reduce(ReduceExcuse),
    /// An entry of x0, K or V, a value of an equality's form, what is left of its side, or a number on the way to a gap.
    Product(Steps),
}

/// Why there is no frame.
#[derive(Drop)]
pub enum FrameStop {
    Excuse(FrameExcuse),
    NoMemory,
}

impl From<NoMemory> for FrameStop {
    ghost use Rattle.std.specs.Prelude.{◌≡◌};
    ghost use Rattle.reformulate.specs.declared.outcome.FrameStop.TheVariants as stops;

    ghost from_gives = { λ _ error. error ≡ stops.NoMemory };

    fn from(_error: NoMemory) -> FrameStop {
        FrameStop::NoMemory
    }
}

impl From<AllocError> for FrameStop {
    ghost use Rattle.std.specs.Prelude.{◌≡◌};
    ghost use Rattle.reformulate.specs.declared.outcome.FrameStop.TheVariants as stops;

    ghost from_gives = { λ _ error. error ≡ stops.NoMemory };

    fn from(_error: AllocError) -> FrameStop {
        FrameStop::NoMemory
    }
}
