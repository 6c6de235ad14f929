// Why a block can't be decoded.

ghost use Rattle.std.specs.Prelude.{◌≡◌};
ghost use Rattle.reconstruct.specs.declared.refusal.DecodeRefused.TheVariants.{NoMemory};
ghost use Rattle.reconstruct.specs.declared.refusal.CheckRefused.TheVariants.{NoMemory as NoMemoryToCheck};

use std::alloc::AllocError;

#[derive(Clone, Copy, Debug, PartialEq, Eq)]
pub enum DecodeRefused {
    /// More columns of a row are lost than it has parity columns; the first such row.
    TooFew { row: u32 },
    NoMemory,
}

impl From<AllocError> for DecodeRefused {
    ghost from_gives = { λ _ why. why ≡ NoMemory };

    fn from(_error: AllocError) -> DecodeRefused {
        DecodeRefused::NoMemory
    }
}

#[derive(Clone, Copy, Debug, PartialEq, Eq)]
pub enum CheckRefused {
    /// No choice of suspects gives bytes with the digest.
    Damaged,
    NoMemory,
}

impl From<AllocError> for CheckRefused {
    ghost from_gives = { λ _ why. why ≡ NoMemoryToCheck };

    fn from(_error: AllocError) -> CheckRefused {
        CheckRefused::NoMemory
    }
}
