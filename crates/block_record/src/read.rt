// From the bytes of a page to its entries.
ghost use Rattle.std.specs.Prelude.{◌≡◌, ◌≢◌, ℕ, ◌+◌, ◌*◌, ◌<◌, ◌≤◌, ◌↔◌, List, length, take, slice_index, All, IsTrue};
ghost use Rattle.std.specs.Prelude.{IsErrAnd, IfOk, IfErr, IfNone, IfSome, MatchResult};
ghost use Rattle.block_record.specs.declared.entry.IndexEntry.{IndexEntry};
ghost use Rattle.block_record.specs.declared.read.IndexRefused.TheVariants.{BadIndex, NoMemory};
ghost use Rattle.block_record.specs.Page.{page_sectors, IsIndex, IsPageOf};
ghost use Rattle.block_record.specs.Index.{AreZeros, BeginsWith, entry_fields, FitsFields, HasRightLengthAndBirth};
ghost use Rattle.block_record.specs.Index.{IsBadIndex, SpellsEntry, IsNext};
ghost use Rattle.block_record.specs.Refused.{IsBadAt, IsWrongAt};

use crate::entry::IndexEntry;
use crate::numbers::{digest_at, u32_at, u64_at};
use std::alloc::{AllocError, AllocFailed, Global};

/// Why a page was not read. `BadIndex` names the byte at which its first wrong entry begins, or the
/// first byte after the entries that is not zero.
#[derive(Clone, Copy, Debug, PartialEq, Eq)]
pub enum IndexRefused {
    BadIndex { at: u64 },
    NoMemory,
}

impl From<AllocError> for IndexRefused {
    ghost from_gives = { λ _ why. why ≡ NoMemory };

    fn from(_error: AllocError) -> IndexRefused {
        IndexRefused::NoMemory
    }
}

impl<T: Drop> From<AllocFailed<T>> for IndexRefused {
    ghost from_gives = { λ _ why. why ≡ NoMemory };

    fn from(_error: AllocFailed<T>) -> IndexRefused {
        IndexRefused::NoMemory
    }
}

/// The entries of a page that lists `count` of them.
pub fn read_index(alloc: Global, bytes: &[u8], count: u32) -> Result<Vec<IndexEntry>, IndexRefused>
    requires few { count ≤ 512 }
    requires whole { length bytes.now ≡ 512 * page_sectors count }
    ensures ok { IfOk result (λ entries. IsPageOf bytes.now count entries.items) }

    // A page is read as its entries, and other bytes are refused where they go wrong.
    ensures reads { (entries : List IndexEntry) → IsPageOf bytes.now count entries
        → MatchResult result (λ read. read.items ≡ entries) (λ why. why ≡ NoMemory) }
    ensures cause_bad_index { (at_byte : ℕ) → result ≡ Err (BadIndex at_byte)
        → IsBadIndex bytes.now count at_byte }
    ensures refuses { (at_byte : ℕ) → IsBadIndex bytes.now count at_byte
        → IsErrAnd result (IsBadAt at_byte) }
{
    let entries = read_entries(alloc, bytes, count as usize)?;
    match first_nonzero(bytes, 64 * count as usize) {
        Some(at_byte) => Err(IndexRefused::BadIndex { at: at_byte as u64 }),
        None => Ok(entries),
    }
}

fn read_entries(alloc: Global, bytes: &[u8], count: usize) -> Result<Vec<IndexEntry>, IndexRefused>
    requires room { 64 * count ≤ length bytes.now }
    ensures counted { IfOk result (λ entries. length entries.items ≡ count) }
    ensures ok { IfOk result (λ entries. BeginsWith bytes.now entries.items) }
    ensures err { IfErr result (IsWrongAt bytes.now count) }
{
    let mut entries = Vec::with_capacity(alloc, count)?;
    for index in 0..count {
        let start = 64 * index;
        match next_entry(&entries, &bytes[start..start + 64]) {
            Some(entry) => entries.push(entry)?,
            None => return Err(IndexRefused::BadIndex { at: start as u64 }),
        }
    }
    Ok(entries)
}

/// The entry in these bytes, if it may stand behind the others.
fn next_entry(entries: &[IndexEntry], bytes: &[u8]) -> Option<IndexEntry>
    requires index { IsIndex entries.now }
    requires whole { length bytes.now ≡ 64 }
    ensures some { IfSome result (IsNext entries.now bytes.now) }
    ensures none { IfNone result ((next : IndexEntry) → IsNext entries.now bytes.now next → ⊥) }
{
    let entry = read_entry(bytes)?;
    if is_behind(entries, entry.id) {
        Some(entry)
    } else {
        None
    }
}

fn is_behind(entries: &[IndexEntry], id: u64) -> bool
    requires index { IsIndex entries.now }
    ensures value { IsTrue result ↔ All (λ entry. entry.id < id) entries.now }
{
    match entries.last() {
        Some(last) => last.id < id,
        None => true,
    }
}

fn read_entry(bytes: &[u8]) -> Option<IndexEntry>
    requires whole { length bytes.now ≡ 64 }
    ensures some { IfSome result (SpellsEntry bytes.now) }
    ensures none { IfNone result ((entry : IndexEntry) → SpellsEntry bytes.now entry → ⊥) }
{
    let entry = entry_at(bytes);
    if is_right(&entry) && u32_at(bytes, 60) == 0 {
        Some(entry)
    } else {
        None
    }
}

fn entry_at(bytes: &[u8]) -> IndexEntry
    requires whole { length bytes.now ≡ 64 }
    ensures fields { take 60 bytes.now ≡ entry_fields result }
    ensures fits { FitsFields result }
{
    IndexEntry {
        id: u64_at(bytes, 0),
        start: u64_at(bytes, 8),
        len: u32_at(bytes, 16),
        birth: u64_at(bytes, 20),
        digest: digest_at(bytes, 28),
    }
}

fn is_right(entry: &IndexEntry) -> bool
    ensures value { IsTrue result ↔ HasRightLengthAndBirth entry.now }
{
    entry.len >= 1 && entry.len <= 65536 && entry.birth >= 1
}

fn first_nonzero(bytes: &[u8], first: usize) -> Option<usize>
    requires room { first ≤ length bytes.now }
    ensures within { IfSome result (λ at_byte. (first ≤ at_byte) × (at_byte < length bytes.now)) }
    ensures wrong { IfSome result (λ at_byte. slice_index bytes.now at_byte ≢ 0) }
    ensures some { IfSome result (AreZeros bytes.now first) }
    ensures none { IfNone result (AreZeros bytes.now first (length bytes.now)) }
{
    for at_byte in first..bytes.len() {
        if bytes[at_byte] != 0 {
            return Some(at_byte);
        }
    }
    None
}
