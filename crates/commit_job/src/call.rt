// One device call of a commit.
ghost use Rattle.std.specs.Prelude.{◌≡◌};
ghost use Rattle.commit_job.specs.Stages.{device_of};

/// `IndexWrite` writes this sector of the index page, from 0.
#[derive(Clone, Copy, Debug, PartialEq, Eq)]
pub enum CommitCall {
    IndexWrite { device: u32, part: u64 },
    BaseSync { device: u32 },
    UberWrite { device: u32 },
    UberSync { device: u32 },
}

impl CommitCall {
    pub fn device(&self) -> u32
        ensures value { result ≡ device_of self.now }
    {
        match self {
            CommitCall::IndexWrite { device, .. } => *device,
            CommitCall::BaseSync { device } => *device,
            CommitCall::UberWrite { device } => *device,
            CommitCall::UberSync { device } => *device,
        }
    }
}
