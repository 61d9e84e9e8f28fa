//! Why a map is not taken.
use sequence::NoMemory;
use std::alloc::{AllocError, AllocFailed};

/// Why there is no image, no composed map or no pulled form.
#[derive(Clone, Copy, Debug, PartialEq, Eq)]
pub enum MapStop {
    /// A product, or a sum of products in index order, leaves `i128`.
    Wide,
    /// The system gave no memory.
    NoMemory,
}

impl From<NoMemory> for MapStop {
    ghost use Rattle.std.specs.Prelude.{◌≡◌};
    ghost use Rattle.spaces.specs.declared.map_stop.MapStop.TheVariants as stops;

    ghost from_gives = { λ _ error. error ≡ stops.NoMemory };

    fn from(_error: NoMemory) -> MapStop {
        MapStop::NoMemory
    }
}

impl From<AllocError> for MapStop {
    ghost use Rattle.std.specs.Prelude.{◌≡◌};
    ghost use Rattle.spaces.specs.declared.map_stop.MapStop.TheVariants as stops;

    ghost from_gives = { λ _ error. error ≡ stops.NoMemory };

    fn from(_error: AllocError) -> MapStop {
        MapStop::NoMemory
    }
}

/// The number that found no room is dropped.
impl From<AllocFailed<i128>> for MapStop {
    ghost use Rattle.std.specs.Prelude.{◌≡◌};
    ghost use Rattle.spaces.specs.declared.map_stop.MapStop.TheVariants as stops;

    ghost from_gives = { λ _ error. error ≡ stops.NoMemory };

    fn from(_error: AllocFailed<i128>) -> MapStop {
        MapStop::NoMemory
    }
}
