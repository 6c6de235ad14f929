// Which pool the devices choose.
ghost use Rattle.std.specs.Prelude.{◌≡◌, ◌<◌, [], IfNone, IfOk, IfSome, Contains};
ghost use Rattle.bank_trait.specs.Disk.{Image};
ghost use Rattle.core_state.specs.Shown.{Shape, read_devices};
ghost use Rattle.core_open.specs.declared.ring_uber.RingUber.{RingUber as RingUberOf};
ghost use Rattle.core_open.specs.RingUbers.{AreByGroup, AreRight, AreShown};
ghost use Rattle.core_open.specs.Votes.{AreVotes, IsPoolChoice, IsVote, IsWinner, votes_for};

use crate::reading::{READ_DEVICES, Rings};
use crate::ring_uber::RingUber;
use std::alloc::{AllocError, Global};
use uberblock_ring::DeviceSet;

/// A device's vote: the pool of its uberblock with the greatest group.
#[derive(Clone, Copy, Debug, PartialEq, Eq)]
pub struct Vote {
    pub device: u32,
    pub pool: u64,
}

/// The pool that most devices name, among equals that of the lowest. Silent devices have no vote.
pub fn choose_pool(alloc: Global, rings: &Rings) -> Result<Option<u64>, AllocError>
    requires right { AreRight 16 rings.now.ubers.items }
    requires order { AreByGroup rings.now.ubers.items }
    ensures chosen { IfOk result (λ pool. (shape : Shape) (image : Image)
        → AreShown shape rings.now.silent image (read_devices shape) rings.now.ubers.items
        → IsPoolChoice shape rings.now.silent image pool) }
{
    let votes = cast_votes(alloc, &rings.ubers, rings.silent)?;
    Ok(winner(&votes))
}

fn cast_votes(alloc: Global, ubers: &[RingUber], silent: DeviceSet) -> Result<Vec<Vote>, AllocError>
    requires right { AreRight 16 ubers.now }
    requires order { AreByGroup ubers.now }
    ensures { IfOk result (λ votes. AreVotes ubers.now silent votes.items) }
{
    let mut votes = Vec::new(alloc);
    for device in 0..READ_DEVICES {
        if silent.has(device) {
            continue;
        }
        if let Some(vote) = vote_of(ubers, device) {
            votes.push(vote)?;
        }
    }
    Ok(votes)
}

/// The vote of a device, if it has any uberblock. Its first one has its greatest group.
fn vote_of(ubers: &[RingUber], device: u32) -> Option<Vote>
    requires order { AreByGroup ubers.now }
    ensures device { IfSome result (λ vote. vote.device ≡ device) }
    ensures vote { IfSome result (IsVote ubers.now) }
    ensures none { IfNone result ((ring_uber : RingUberOf) → Contains ubers.now ring_uber
        → ring_uber.device ≡ device → ⊥) }
{
    for ring_uber in ubers {
        if ring_uber.device == device {
            return Some(Vote {
                device,
                pool: ring_uber.uber.pool(),
            });
        }
    }
    None
}

/// The pool with the most votes, among equals the one whose first vote comes first.
fn winner(votes: &[Vote]) -> Option<u64>
    ensures some { IfSome result (IsWinner votes.now) }
    ensures none { IfNone result (votes.now ≡ []) }
{
    let mut winner = None;
    let mut most = 0;
    for vote in votes {
        let count = count_votes(votes, vote.pool);
        if most < count {
            winner = Some(vote.pool);
            most = count;
        }
    }
    winner
}

fn count_votes(votes: &[Vote], pool: u64) -> usize
    ensures { result ≡ votes_for pool votes.now }
{
    votes.iter().filter(|vote| vote.pool == pool).count()
}
