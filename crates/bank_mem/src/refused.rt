// Why images make no bank.
use std::alloc::AllocError;

#[derive(Clone, Copy, Debug, PartialEq, Eq)]
pub enum ImagesRefused {
    /// Two of them are not equally long.
    Unequal,
    /// There are 2^32 or more.
    TooMany,
    NoMemory,
}

impl From<AllocError> for ImagesRefused {
    ghost use Rattle.std.specs.Prelude.{◌≡◌};
    ghost use Rattle.bank_mem.specs.declared.refused.ImagesRefused.TheVariants.{NoMemory};

    ghost from_gives = { λ _ refused. refused ≡ NoMemory };

    fn from(_: AllocError) -> ImagesRefused {
        ImagesRefused::NoMemory
    }
}
