// The widths that the pool has had.
ghost use Rattle.std.specs.Prelude.{◌≡◌, ℕ, ◌+◌, ◌<◌, ◌≤◌, ◌^◌, ◌↔◌, length, IsTrue, SomeIff};
ghost use Rattle.width_map.specs.Births.{first_births, births_after, width_of_birth, last_width, IsGrowing, NoneAbove};
ghost use Rattle.width_map.specs.Births.{BirthsFit};

use crate::Birth;
use std::marker::Model;

/// The entries that an uberblock has room for.
pub const MAX_BIRTHS: usize = 16;

const UNUSED: Birth = Birth { group: 0, width: 0 };

/// The widths that the pool has had, oldest first: at least one, at most `MAX_BIRTHS`.
#[derive(Clone, Copy, Debug, PartialEq, Eq)]
pub struct Births {
    entries: [Birth; 16],
    used: usize,
}

impl Model for Births {
    ghost use Rattle.std.specs.Prelude.{List, take};
    ghost use Rattle.width_map.specs.declared.birth.Birth.{Birth};

    ghost Value = { List Birth };

    ghost use Rattle.width_map.specs.Table.{table_of, IsBirthTable};

    ghost view = { λ table. take table.used table.entries };

    ghost invariant = { λ table. IsBirthTable table.entries table.used };

    ghost inverse = { table_of };

    ghost inverse_ok = { λ table is. λ i. record { entries = is.padded i; used = is.counted i } };
}

impl Births {
    /// Those of a new pool.
    pub fn first(width: u32) -> Births
        requires some { 2 ≤ width }
        requires wide { width ≤ 64 }
        ensures value { result ≡ first_births width }
    {
        let mut entries = [UNUSED; 16];
        entries[0] = Birth { group: 0, width };
        Births { entries, used: 1 }
    }

    pub fn as_slice(&self) -> &[Birth]
        ensures value { result.now ≡ self.now }
        ensures some { 0 < length self.now }
        ensures room { length self.now ≤ MAX_BIRTHS }
    {
        &self.entries[..self.used]
    }

    /// Whether both tables have the same entries.
    pub fn is_same(&self, other: &Births) -> bool
        ensures { IsTrue result ↔ (self.now ≡ other.now) }
    {
        self.as_slice() == other.as_slice()
    }

    /// The table of these entries, where they fit and there is one.
    pub fn from_slice(births: &[Birth]) -> Option<Births>
        ensures value { SomeIff result (BirthsFit births.now) births.now }
    {
        if births.is_empty() || births.len() > MAX_BIRTHS {
            return None;
        }
        let mut entries = [UNUSED; 16];
        entries[..births.len()].copy_from_slice(births);
        Some(Births {
            entries,
            used: births.len(),
        })
    }

    /// Records that an expansion ended in this group.
    ///
    /// Blocks born two groups later are one device wider, and no sooner: the group's commit, and the
    /// one that renews it at an opening, were begun at the old width.
    #[tactic(auto, using(crate::proofs::Growing::births_after_grow, crate::proofs::Growing::older_keep))]
    pub fn add(&mut self, group: u64)
        requires room { length self.old < MAX_BIRTHS }
        requires narrow { last_width self.old < 16 }
        requires group_fits { group ≤ 2 ^ 62 }
        ensures value { self.new ≡ births_after self.old group }

        // Blocks that are there already keep their width.
        ensures older { (birth : ℕ) → birth < group + 2
            → width_of_birth self.new birth ≡ width_of_birth self.old birth }
        ensures grows { IsGrowing self.old → NoneAbove group self.old → IsGrowing self.new }
    {
        let width = self.entries[self.used - 1].width + 1;
        self.entries[self.used] = Birth {
            group: group + 2,
            width,
        };
        self.used += 1;
    }
}

/// The width of a block that was born in this group.
pub fn width_at(births: &Births, group: u64) -> u32
    ensures value { result ≡ width_of_birth births.now group }
{
    let mut width = 0;
    for birth in births.as_slice() {
        if birth.group <= group {
            width = birth.width;
        }
    }
    width
}
