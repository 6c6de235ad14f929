// How the top call ends.
ghost use Rattle.std.specs.Prelude.{◌≡◌};
ghost use Rattle.raidzx_top.specs.declared.status.Status.TheVariants.{NoMemory};
ghost use Rattle.raidzx_top.specs.Exit.{read_status, why_status};

use client_script::{LineFault, ReadRefused};
use core_open::OpenWhy;
use std::alloc::AllocError;
use uberblock_ring::DeviceSet;

/// The exit status of `Status::TooManyFailed`, whichever the devices are.
pub const TOO_MANY_FAILED: u8 = 4;

/// The numbers of the exit statuses are 0 to 9 in this order.
#[derive(Clone, Copy, Debug, PartialEq, Eq)]
pub enum Status {
    Done,
    Usage,
    ScriptFault { line: u64, why: LineFault },
    NotPool,
    TooManyFailed { out: DeviceSet },
    TooSmall,
    SourceFault,
    SinkFault,
    NoMemory,
    Limit,
}

impl Status {
    ghost use Rattle.std.specs.Prelude.{◌≡◌};
    ghost use Rattle.raidzx_top.specs.Exit.{exit_code};

    /// The exit status of the program.
    pub fn code(&self) -> u8
        ensures { result ≡ exit_code self.now }
    {
        match self {
            Status::Done => 0,
            Status::Usage => 1,
            Status::ScriptFault { line: _, why: _ } => 2,
            Status::NotPool => 3,
            Status::TooManyFailed { out: _ } => TOO_MANY_FAILED,
            Status::TooSmall => 5,
            Status::SourceFault => 6,
            Status::SinkFault => 7,
            Status::NoMemory => 8,
            Status::Limit => 9,
        }
    }
}

impl From<AllocError> for Status {
    ghost from_gives = { λ _ status. status ≡ NoMemory };

    fn from(_: AllocError) -> Status {
        Status::NoMemory
    }
}

/// The status for why there is no script.
impl From<ReadRefused> for Status {
    ghost from_gives = { λ why status. status ≡ read_status why };

    fn from(why: ReadRefused) -> Status {
        match why {
            ReadRefused::SourceFault => Status::SourceFault,
            ReadRefused::ScriptFault { line, why } => Status::ScriptFault { line, why },
            ReadRefused::Limit { reached: _ } => Status::Limit,
            ReadRefused::NoMemory => Status::NoMemory,
        }
    }
}

/// The status for why a pool couldn't be made or opened.
impl From<OpenWhy> for Status {
    ghost from_gives = { λ why status. status ≡ why_status why };

    fn from(why: OpenWhy) -> Status {
        match why {
            OpenWhy::NotPool => Status::NotPool,
            OpenWhy::TooManyFailed { out } => Status::TooManyFailed { out },
            OpenWhy::Limit { group: _ } => Status::Limit,
            OpenWhy::NoMemory => Status::NoMemory,
        }
    }
}
