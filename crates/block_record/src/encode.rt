// From entries to the bytes of their page.
ghost use Rattle.std.specs.Prelude.{◌≡◌, ℕ, ◌+◌, ◌*◌, ◌<◌, ◌≤◌, ◌++◌, length, take, drop, flat_map, IfOk};
ghost use Rattle.block_record.specs.Page.{entry_bytes, index_page, page_sectors, IsIndex};

use crate::entry::IndexEntry;
use crate::sector::SectorWriter;
use std::alloc::{AllocError, Global};

/// How many sectors the page of so many entries takes: eight entries in each.
pub fn page_sectors(count: usize) -> u64
    requires { count ≤ 512 }
    ensures { result ≡ page_sectors count }
{
    (count as u64 + 7) / 8
}

/// The page of these entries, in whole sectors.
pub fn encode_index(alloc: Global, entries: &[IndexEntry]) -> Result<Vec<u8>, AllocError>
    requires index { IsIndex entries.now }
    requires few { length entries.now ≤ 512 }
    ensures value { IfOk result (λ page. page.items ≡ index_page entries.now) }
{
    let sectors = page_sectors(entries.len());
    let mut page = Vec::with_capacity(alloc, 512 * sectors as usize)?;
    for part in 0..sectors {
        page.extend_from_slice(&index_sector(entries, part))?;
    }
    Ok(page)
}

/// One sector of the page, counted from 0, without the whole.
pub fn index_sector(entries: &[IndexEntry], part: u64) -> [u8; 512]
    requires index { IsIndex entries.now }
    requires few { length entries.now ≤ 512 }
    requires part { part < page_sectors (length entries.now) }
    ensures value { result ≡ take 512 (drop (512 * part) (index_page entries.now)) }
{
    let first = 8 * part as usize;
    let end = entries.len().min(first + 8);
    let mut sector = SectorWriter::new();
    put_entries(&mut sector, &entries[first..end]);
    sector.finish()
}

fn put_entries(sector: &mut SectorWriter, entries: &[IndexEntry])
    requires { length sector.old + 64 * length entries.now ≤ 512 }
    ensures bytes { sector.new ≡ sector.old ++ flat_map entry_bytes entries.now }
    ensures len { length sector.new ≡ length sector.old + 64 * length entries.now }
{
    for entry in entries {
        put_entry(sector, entry);
    }
}

fn put_entry(sector: &mut SectorWriter, entry: &IndexEntry)
    requires { length sector.old + 64 ≤ 512 }
    ensures bytes { sector.new ≡ sector.old ++ entry_bytes entry.now }
    ensures len { length sector.new ≡ length sector.old + 64 }
{
    sector.put_u64(entry.id);
    sector.put_u64(entry.start);
    sector.put_u32(entry.len);
    sector.put_u64(entry.birth);
    sector.put(&entry.digest);
    sector.put_u32(0);
}
