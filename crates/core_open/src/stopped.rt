// Why a choice was broken off.
ghost use Rattle.std.specs.Prelude.{◌≡◌};
ghost use Rattle.core_open.specs.declared.stopped.Stopped.TheVariants.{NoMemory};

use std::alloc::{AllocError, AllocFailed};

/// A device that failed isn't called again, and the choice is to be made anew without it.
#[derive(Clone, Copy, Debug, PartialEq, Eq)]
pub enum Stopped {
    Failed { device: u32 },
    NoMemory,
}

impl From<AllocError> for Stopped {
    ghost from_gives = { λ _ why. why ≡ NoMemory };

    fn from(_error: AllocError) -> Stopped {
        Stopped::NoMemory
    }
}

impl<T: Drop> From<AllocFailed<T>> for Stopped {
    ghost from_gives = { λ _ why. why ≡ NoMemory };

    fn from(_error: AllocFailed<T>) -> Stopped {
        Stopped::NoMemory
    }
}
