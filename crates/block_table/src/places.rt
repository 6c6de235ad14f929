// Entries in the order of their ids.
ghost use Rattle.std.specs.Prelude.{◌≡◌, ◌<◌, ◌≤◌, ◌+◌, drop, IfErr, IfOk, is_some, length, None, Some, take, true};
ghost use Rattle.std.specs.Prelude.{vec_len};
ghost use Rattle.std.specs.Option.{option_copied};
ghost use Rattle.std.specs.Vec.{vec_capacity};
ghost use Rattle.block_record.specs.Page.{IsIndex, IsRightEntry};
ghost use Rattle.block_table.specs.Table.{ChangesOnly, entry_of, IsFound, IsMissing, IsPlaceOfId};

use block_record::IndexEntry;

/// The place of the first entry whose id is this or a greater one. Where no lower id is missing it is the id itself,
/// which is tried before a search by halves.
pub fn place_of(entries: &[IndexEntry], id: u64) -> usize
    requires index { IsIndex entries.now }
    ensures inside { result ≤ length entries.now }
    ensures place { IsPlaceOfId entries.now (take result entries.now) (drop result entries.now) id }
{
    let dense = id as usize;
    if is_place(entries, dense, id) {
        return dense;
    }
    entries.partition_point(|entry| entry.id < id)
}

/// Whether this is the place of the first entry whose id is this or a greater one.
fn is_place(entries: &[IndexEntry], place: usize, id: u64) -> bool
    requires index { IsIndex entries.now }
    ensures inside { result ≡ true → place ≤ length entries.now }
    ensures place { result ≡ true
        → IsPlaceOfId entries.now (take place entries.now) (drop place entries.now) id }
{
    if place > entries.len() || (place > 0 && entries[place - 1].id >= id) {
        return false;
    }
    place == entries.len() || entries[place].id >= id
}

/// The place of the entry with this id, or the place where it would go.
pub fn search(entries: &[IndexEntry], id: u64) -> Result<usize, usize>
    requires index { IsIndex entries.now }
    ensures found { IfOk result (IsFound entries.now id) }
    ensures missing { IfErr result (IsMissing entries.now id) }
{
    let place = place_of(entries, id);
    if place == entries.len() {
        return Err(place);
    }
    if entries[place].id != id {
        return Err(place);
    }
    Ok(place)
}

/// The entry with this id.
pub fn find(entries: &[IndexEntry], id: u64) -> Option<&IndexEntry>
    requires index { IsIndex entries.now }
    ensures value { option_copied result ≡ entry_of entries.now id }
{
    match search(entries, id) {
        Ok(place) => Some(&entries[place]),
        Err(_) => None,
    }
}

/// Whether an entry has this id.
pub fn holds(entries: &[IndexEntry], id: u64) -> bool
    requires index { IsIndex entries.now }
    ensures value { result ≡ is_some (entry_of entries.now id) }
{
    match search(entries, id) {
        Ok(_) => true,
        Err(_) => false,
    }
}

/// Puts an entry in its place, and gives what stood there.
pub fn put(entries: &mut Vec<IndexEntry>, entry: IndexEntry) -> Option<IndexEntry>
    requires index { IsIndex entries.old.items }
    requires right { IsRightEntry entry }
    requires room { vec_len entries.old < vec_capacity entries.old }
    ensures was { result ≡ entry_of entries.old.items entry.id }
    ensures index { IsIndex entries.new.items }
    ensures change { ChangesOnly entries.old.items entries.new.items entry.id (Some entry) }
    ensures len { vec_len entries.new ≤ vec_len entries.old + 1 }
    ensures capacity { vec_capacity entries.old ≤ vec_capacity entries.new }
{
    match search(entries, entry.id) {
        Ok(place) => {
            let was = entries[place];
            entries[place] = entry;
            Some(was)
        }
        Err(place) => {
            match entries.insert(place, entry) {
                Ok(()) => None,
                Err(_) => unreachable!(),
            }
        }
    }
}

/// Takes the entry with this id away, and gives it.
pub fn remove(entries: &mut Vec<IndexEntry>, id: u64) -> Option<IndexEntry>
    requires index { IsIndex entries.old.items }
    ensures was { result ≡ entry_of entries.old.items id }
    ensures index { IsIndex entries.new.items }
    ensures change { ChangesOnly entries.old.items entries.new.items id None }
    ensures len { vec_len entries.new ≤ vec_len entries.old }
    ensures capacity { vec_capacity entries.new ≡ vec_capacity entries.old }
{
    match search(entries, id) {
        Ok(place) => Some(entries.remove(place)),
        Err(_) => None,
    }
}
