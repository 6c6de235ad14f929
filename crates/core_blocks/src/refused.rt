// Why a put doesn't begin.
ghost use Rattle.std.specs.Prelude.{◌≡◌};
ghost use Rattle.core_blocks.specs.Refused.{from_table, from_space};

use block_table::ReserveRefused;
use space_alloc::TakeRefused;

/// Why a put doesn't begin.
#[derive(Clone, Copy, Debug, PartialEq, Eq)]
pub enum PutRefused {
    /// As many other ids are held or reserved as may be.
    Full,
    /// No run of so many free sectors is left.
    NoSpace { sectors: u64 },
    /// There is one, but each overlaps an exclusive hold; the actor in the way of the lowest.
    Busy { by: u8 },
    NoMemory,
}

impl From<ReserveRefused> for PutRefused {
    ghost from_gives = { λ why refused. refused ≡ from_table why };

    fn from(why: ReserveRefused) -> PutRefused {
        match why {
            ReserveRefused::Full => PutRefused::Full,
            ReserveRefused::NoMemory => PutRefused::NoMemory,
        }
    }
}

impl From<TakeRefused> for PutRefused {
    ghost from_gives = { λ why refused. refused ≡ from_space why };

    fn from(why: TakeRefused) -> PutRefused {
        match why {
            TakeRefused::NoSpace { sectors } => PutRefused::NoSpace { sectors },
            TakeRefused::Busy { by } => PutRefused::Busy { by },
            TakeRefused::NoMemory => PutRefused::NoMemory,
        }
    }
}
