// Ids that puts under way have reserved.
ghost use Rattle.std.specs.Prelude.{◌≡◌, ◌↔◌, ◌<◌, ◌≤◌, ◌+◌, ◌^◌, ◌++◌, drop, IsTrue, length, nat_eq, take, true};
ghost use Rattle.std.specs.Prelude.{vec_len};
ghost use Rattle.std.specs.Set.{distinct_count, is_member};
ghost use Rattle.std.specs.Vec.{vec_capacity};
ghost use Rattle.block_record.specs.Page.{IsIndex};
ghost use Rattle.block_table.specs.Table.{ids_of, IsFull, without_one};

use crate::{MAX_IDS, places};
use block_record::IndexEntry;

/// Whether an id is reserved or held.
pub fn is_known(entries: &[IndexEntry], reserved: &[u64], id: u64) -> bool
    requires index { IsIndex entries.now }
    ensures value { result ≡ is_member nat_eq (reserved.now ++ ids_of entries.now) id }
{
    is_among(reserved, id) || places::holds(entries, id)
}

fn is_among(ids: &[u64], id: u64) -> bool
    ensures value { result ≡ is_member nat_eq ids.now id }
{
    ids.iter().any(|other| id == *other)
}

/// How many ids are reserved or held, each counted once.
pub fn in_use(entries: &[IndexEntry], reserved: &[u64]) -> usize
    requires index { IsIndex entries.now }
    requires fits { length entries.now + length reserved.now < 2 ^ 64 }
    ensures value { result ≡ distinct_count nat_eq (reserved.now ++ ids_of entries.now) }
{
    let mut count = entries.len();
    for index in 0..reserved.len() {
        if !is_known(entries, &reserved[index + 1..], reserved[index]) {
            count += 1;
        }
    }
    count
}

/// Whether there is no room for an id: as many others are reserved or held as may be. Looks at no id where all of them
/// together are fewer.
pub fn is_full(entries: &[IndexEntry], reserved: &[u64], id: u64) -> bool
    requires index { IsIndex entries.now }
    requires fits { length entries.now + length reserved.now < 2 ^ 64 }
    ensures value { IsTrue result
        ↔ IsFull (record { entries = entries.now; reserved = reserved.now }) id }
{
    if entries.len() + reserved.len() < MAX_IDS {
        return false;
    }
    if is_known(entries, reserved, id) {
        return false;
    }
    in_use(entries, reserved) == MAX_IDS
}

/// Ends one reservation of an id that is reserved.
pub fn end_one(reserved: &mut Vec<u64>, id: u64)
    requires there { is_member nat_eq reserved.old.items id ≡ true }
    ensures value { reserved.new.items ≡ without_one id reserved.old.items }
    ensures len { vec_len reserved.new + 1 ≡ vec_len reserved.old }
{
    let first = first_of(reserved, id);
    reserved.remove(first);
}

fn first_of(reserved: &[u64], id: u64) -> usize
    requires there { is_member nat_eq reserved.now id ≡ true }
    ensures inside { result < length reserved.now }
    ensures first { without_one id reserved.now
        ≡ take result reserved.now ++ drop (result + 1) reserved.now }
{
    for index in 0..reserved.len() {
        if reserved[index] == id {
            return index;
        }
    }
    unreachable!()
}
