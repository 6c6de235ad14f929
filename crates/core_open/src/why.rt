// Why a pool was not created or opened.
ghost use Rattle.std.specs.Prelude.{◌≡◌};
ghost use Rattle.core_open.specs.declared.why.OpenWhy.TheVariants.{NoMemory};

use std::alloc::AllocError;
use uberblock_ring::DeviceSet;

/// `out` has the devices that are out, `group` the greatest group that there may be.
#[derive(Clone, Copy, Debug, PartialEq, Eq)]
pub enum OpenWhy {
    NotPool,
    TooManyFailed { out: DeviceSet },
    Limit { group: u64 },
    NoMemory,
}

impl From<AllocError> for OpenWhy {
    ghost from_gives = { λ _ why. why ≡ NoMemory };

    fn from(_error: AllocError) -> OpenWhy {
        OpenWhy::NoMemory
    }
}
