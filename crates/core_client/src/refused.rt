// Why a block can't be had.
ghost use Rattle.std.specs.Prelude.{◌≡◌};
ghost use Rattle.core_client.specs.declared.refused.FetchRefused.TheVariants.{NoMemory};

use std::alloc::AllocError;

#[derive(Clone, Copy, Debug, PartialEq, Eq)]
pub enum FetchRefused {
    /// No choice of suspects leaves enough columns of each row and gives bytes with the digest.
    Damaged,
    NoMemory,
}

impl From<AllocError> for FetchRefused {
    ghost from_gives = { λ _ why. why ≡ NoMemory };

    fn from(_error: AllocError) -> FetchRefused {
        FetchRefused::NoMemory
    }
}
