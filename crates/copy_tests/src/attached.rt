// A pool of three devices, and one to which a fourth was attached, before anything was copied.
ghost use Rattle.std.specs.Prelude.{◌≤◌};

use crate::pool_on_bank::PoolOnBank;
use bank_mem::MemBank;
use core_open::create;
use core_state::Answer;
use std::alloc::{AllocError, Global};
use std::test::Fail;

/// Blocks of several lengths in bytes. The seventh lies across sector 128, and the last ends at 148.
pub const MIXED: [u64; 8] = [6_000, 8_000, 700, 5_000, 9_000, 9_000, 9_000, 512];

/// The bytes of a block: no two ids have the same.
pub fn block_bytes(alloc: Global, id: u64, len: u64) -> Result<Vec<u8>, AllocError> {
    let mut bytes = Vec::new(alloc);
    for place in 0..len {
        let value = place.wrapping_mul(7).wrapping_add(place / 256);
        bytes.push((id.wrapping_add(value) % 251 + 1) as u8)?;
    }
    Ok(bytes)
}

/// A new pool of width 3 and parity 1, on the first three of so many devices of 256 sectors, with blocks of these
/// lengths: the first has the id 0, and each next one the next id. They are put one behind the other from sector 0 on,
/// and synced.
pub fn pool_of_three(alloc: Global, devices: u32, lengths: &[u64]) -> Result<PoolOnBank, Fail>
    requires { 3 ≤ devices }
{
    let mut bank = MemBank::new(alloc, devices, 256)?;
    create(&mut bank, 1, 3, 9)?;
    let mut pool = PoolOnBank::open(alloc, bank)?;
    for (id, len) in lengths.iter().enumerate() {
        let bytes = block_bytes(alloc, id as u64, *len)?;
        pool.put(alloc, id as u64, bytes.as_slice())?;
    }
    pool.commit(alloc)?;
    Ok(pool)
}

/// The same on four devices, of which the fourth was attached: nothing was copied yet.
pub fn attached_pool(alloc: Global, lengths: &[u64]) -> Result<PoolOnBank, Fail> {
    let mut pool = pool_of_three(alloc, 4, lengths)?;
    match pool.attach(alloc)? {
        Answer::Attached { width: 4, group: _ } => Ok(pool),
        _ => Err("a device is not attached".into()),
    }
}

/// The same, and so many rounds of a copy behind it.
pub fn copied_pool(alloc: Global, lengths: &[u64], rounds: u64) -> Result<PoolOnBank, Fail> {
    let mut pool = attached_pool(alloc, lengths)?;
    for _ in 0..rounds {
        pool.round(alloc)?;
    }
    Ok(pool)
}

/// Whether each of the blocks is read with its bytes.
pub fn are_read(alloc: Global, pool: &mut PoolOnBank, lengths: &[u64]) -> Result<bool, Fail> {
    for (id, len) in lengths.iter().enumerate() {
        let bytes = block_bytes(alloc, id as u64, *len)?;
        if pool.get(alloc, id as u64)?.as_slice() != bytes.as_slice() {
            return Ok(false);
        }
    }
    Ok(true)
}
