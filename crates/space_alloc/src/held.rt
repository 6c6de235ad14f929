// The list of runs that are held back, in the order in which they were given back.
ghost use Rattle.std.specs.Prelude.{◌≡◌, ◌≤◌, filter, vec_len};
ghost use Rattle.std.specs.Vec.{vec_capacity};
ghost use Rattle.space_alloc.specs.Entries.{is_left};

use crate::entry::Entry;

/// A run of a block that was freed. It is free again when the group is answered.
#[derive(Clone, Copy, Debug)]
pub struct HeldEntry {
    pub entry: Entry,
    pub until: u64,
}

impl HeldEntry {
    /// Whether the run is still in use when this group is answered.
    pub fn is_left(&self, group: u64) -> bool
        ensures { result ≡ is_left group self.now }
    {
        group < self.until
    }
}

/// Takes away the runs that are held until this group or an earlier one.
pub fn remove_until(held: &mut Vec<HeldEntry>, group: u64)
    ensures left { held.new.items ≡ filter (is_left group) held.old.items }
    ensures len { vec_len held.new ≤ vec_len held.old }
    ensures capacity { vec_capacity held.new ≡ vec_capacity held.old }
{
    held.retain(|run| run.is_left(group));
}
