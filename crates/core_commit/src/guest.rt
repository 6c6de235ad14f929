// How far the device has come that may join a commit, and whose turn it is.
ghost use Rattle.std.specs.Prelude.{◌≡◌};
ghost use Rattle.core_commit.specs.JoinTurns.{IsNextTurn, part_left};

use commit_job::CommitCall;

/// How far a device has come that may join: so many sectors of the index page are written to it, or it is synced with
/// all of them. Where a call on it failed it is lost, and no call is made on it any more.
#[derive(Clone, Copy, Debug, PartialEq, Eq)]
pub enum Guest {
    Laid { parts: u64 },
    Settled,
    Lost,
}

/// What comes next in a commit that a device may join: a call of the pool's first half, one on that device, or the
/// decision.
#[derive(Clone, Copy, Debug, PartialEq, Eq)]
pub enum JoinTurn {
    PoolCall,
    GuestWrite { part: u64 },
    GuestSync,
    Decision,
}

impl Guest {
    /// The next sector, from 0, that is still to be written to it, of so many of the index page.
    fn next_part(&self, sectors: u64) -> Option<u64>
        ensures value { result ≡ part_left self.now sectors }
    {
        match self {
            Guest::Laid { parts } if *parts < sectors => Some(*parts),
            _ => None,
        }
    }
}

/// What comes next, where this is the pool's next call and the index page has so many sectors. The pool's calls of each
/// kind come before those on the device.
pub fn next_turn(next: Option<CommitCall>, guest: Guest, sectors: u64) -> JoinTurn
    ensures turn { IsNextTurn next guest sectors result }
{
    if let Some(CommitCall::IndexWrite { .. }) = next {
        return JoinTurn::PoolCall;
    }
    if let Some(part) = guest.next_part(sectors) {
        return JoinTurn::GuestWrite { part };
    }
    if let Some(CommitCall::BaseSync { .. }) = next {
        return JoinTurn::PoolCall;
    }
    match guest {
        Guest::Laid { .. } => JoinTurn::GuestSync,
        Guest::Settled | Guest::Lost => JoinTurn::Decision,
    }
}
