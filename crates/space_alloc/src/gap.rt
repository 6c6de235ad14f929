// Places among entries by their start.
ghost use Rattle.std.specs.Prelude.{◌≡◌, ◌≢◌, ◌<◌, ◌+◌, All, get_or, length, true, false};
ghost use Rattle.space_alloc.specs.declared.entry.Entry.{Entry};
ghost use Rattle.space_alloc.specs.Entries.{live_of, BeginInOrder, IsPartitionedAt, IsDeadAt, IsGapFor};

use crate::entry::Entry;

/// Where a run is put.
#[derive(Clone, Copy, Debug)]
pub enum Gap {
    /// In the place of the dead entry that stands here.
    Dead(usize),
    /// Before the entry that stands here.
    Between(usize),
}

/// Where a run that begins at a sector is put, perhaps at this place. A dead entry on either side serves.
pub fn find(entries: &[Entry], start: u64, near: usize) -> Gap
    requires order { BeginInOrder entries.now }
    requires elsewhere { All (λ entry. entry.start ≢ start) (live_of entries.now) }
    ensures { IsGapFor entries.now start result }
{
    let at = place(entries, start, near);
    if is_dead(entries, at) {
        return Gap::Dead(at);
    }
    if 0 < at && is_dead(entries, at - 1) {
        return Gap::Dead(at - 1);
    }
    Gap::Between(at)
}

/// The place of the first entry that does not begin before this sector. The one that is given is tried before a search
/// by halves.
pub fn place(entries: &[Entry], start: u64, near: usize) -> usize
    requires { BeginInOrder entries.now }
    ensures { IsPartitionedAt entries.now start start result result }
{
    if is_place(entries, near, start) {
        return near;
    }
    entries.partition_point(|entry| entry.start < start)
}

/// Whether this is the place of the first entry that does not begin before this sector.
fn is_place(entries: &[Entry], at: usize, start: u64) -> bool
    requires { BeginInOrder entries.now }
    ensures { result ≡ true → IsPartitionedAt entries.now start start at at }
{
    if at > entries.len() || (at > 0 && entries[at - 1].start >= start) {
        return false;
    }
    at == entries.len() || entries[at].start >= start
}

/// Whether a dead entry stands here.
fn is_dead(entries: &[Entry], at: usize) -> bool
    ensures dead { result ≡ true → IsDeadAt entries.now at }
    ensures live { result ≡ false → (default : Entry) → at < length entries.now
        → 0 < (get_or entries.now at default).len }
{
    at < entries.len() && !entries[at].is_live()
}
