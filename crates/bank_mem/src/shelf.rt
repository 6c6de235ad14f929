// Sectors by device.
ghost use Rattle.std.specs.Prelude.{◌≡◌, ◌<◌, ◌↔◌, ℕ, Some, slice_get, length, Vec, List, IfOk, IsTrue, replicate};
ghost use Rattle.std.specs.declared.alloc.Global.{Global};
ghost use Rattle.bank_mem.specs.Record.{content, put, blank, filled};
ghost use Rattle.bank_mem.specs.Sound.{AllWide};
ghost use Rattle.bank_trait.specs.Regions.{zero_sector};

use std::alloc::{AllocError, Global};

/// Writes one sector.
pub fn put_sector(shelf: &mut Vec<Vec<[u8; 512]>>, device: usize, sector: usize, bytes: &[u8; 512])
    requires device { device < length shelf.old.items }
    requires sector { (row : Vec (List ℕ) Global) → slice_get shelf.old.items device ≡ Some row
        → sector < length row.items }
    ensures held { (d x : ℕ) → content shelf.new.items d x
        ≡ put (content shelf.old.items) device sector (Some bytes.now) d x }
    ensures len { length shelf.new.items ≡ length shelf.old.items }
    ensures width { (n : ℕ) → AllWide shelf.old.items n → AllWide shelf.new.items n }
{
    let row = &mut shelf[device];
    row[sector] = *bytes;
}

/// A sector of one byte over and over.
#[tactic(auto, unfolding(crate::specs::Record::filled))]
pub fn filled_sector(byte: u8) -> [u8; 512]
    ensures { result ≡ filled byte }
{
    [byte; 512]
}

/// Sectors of zeros.
#[tactic(auto, unfolding(bank_trait::specs::Regions::zero_sector))]
fn blank_row(alloc: Global, sectors: u64) -> Result<Vec<[u8; 512]>, AllocError>
    ensures { IfOk result (λ row. row.items ≡ replicate sectors zero_sector) }
{
    let mut row = Vec::new(alloc);
    for _sector in 0..sectors {
        row.push([0; 512])?;
    }
    Ok(row)
}

/// Devices that hold zeros.
pub fn blank_shelf(
    alloc: Global,
    devices: u32,
    sectors: u64,
) -> Result<Vec<Vec<[u8; 512]>>, AllocError>
    ensures held { IfOk result (λ shelf. (d x : ℕ)
        → content shelf.items d x ≡ blank devices sectors d x) }
    ensures len { IfOk result (λ shelf. length shelf.items ≡ devices) }
    ensures wide { IfOk result (λ shelf. AllWide shelf.items sectors) }
{
    let mut shelf = Vec::new(alloc);
    for _device in 0..devices {
        let row = blank_row(alloc, sectors)?;
        shelf.push(row)?;
    }
    Ok(shelf)
}

/// A number for each device.
pub fn counters(alloc: Global, devices: u32) -> Result<Vec<u64>, AllocError>
    ensures { IfOk result (λ all. all.items ≡ replicate devices 0) }
{
    vec![in alloc; 0; devices as usize]
}

/// Whether each device has so many sectors.
pub fn is_wide(shelf: &[Vec<[u8; 512]>], sectors: u64) -> bool
    ensures { IsTrue result ↔ AllWide shelf.now sectors }
{
    for row in shelf {
        if row.len() as u64 != sectors {
            return false;
        }
    }
    true
}

/// The same sectors once more.
pub fn copy_shelf(
    alloc: Global,
    shelf: &[Vec<[u8; 512]>],
) -> Result<Vec<Vec<[u8; 512]>>, AllocError>
    ensures held { IfOk result (λ copy. (d x : ℕ)
        → content copy.items d x ≡ content shelf.now d x) }
    ensures len { IfOk result (λ copy. length copy.items ≡ length shelf.now) }
    ensures width { IfOk result (λ copy. (n : ℕ)
        → AllWide shelf.now n → AllWide copy.items n) }
{
    let mut copy = Vec::new(alloc);
    for row in shelf {
        copy.push(Vec::from_slice(alloc, row)?)?;
    }
    Ok(copy)
}
