// What a stop leaves of a bank of four devices of 256 sectors.
use bank_mem::{MemBank, Tear, Torn};
use bank_trait::Bank;
use std::alloc::{AllocError, Global};
use std::test::Fail;

/// What becomes of the sectors that were handed bytes since their device's last sync.
pub fn all_sectors(alloc: Global, how: Tear) -> Result<Vec<Torn>, AllocError> {
    let mut torn = Vec::new(alloc);
    for device in 0..4 {
        for sector in 0..256 {
            torn.push(Torn {
                device,
                sector,
                how,
            })?;
        }
    }
    Ok(torn)
}

/// What a stop at this call leaves.
pub fn bank_at(alloc: Global, bank: &MemBank, call: u64, torn: &[Torn]) -> Result<MemBank, Fail> {
    Ok(MemBank::from_images(alloc, bank.crash_at(alloc, call, torn)?)?)
}

/// A bank that holds what this one holds. No call of it fails.
pub fn copy_of(alloc: Global, bank: &MemBank) -> Result<MemBank, Fail> {
    let kept = all_sectors(alloc, Tear::Kept)?;
    bank_at(alloc, bank, bank.clock(), kept.as_slice())
}
