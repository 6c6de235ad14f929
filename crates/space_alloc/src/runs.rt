// The list of taken runs, by their start.
ghost use Rattle.std.specs.Prelude.{◌≡◌, ◌≢◌, ◌+◌, ◌*◌, ◌<◌, ◌≤◌, ◌^◌, [], All, Contains, OnOk, OnErr, length};
ghost use Rattle.space_alloc.specs.Entries.{live_of};
ghost use Rattle.space_alloc.specs.Space.{Gains};

use crate::entry::Entry;
use crate::gap::{self, Gap};
use std::alloc::{AllocError, Global};
use std::marker::Model;

/// So many dead entries more than live ones are not worth a pass over all.
const FEW: usize = 64;

/// The runs that are taken, by their start.
///
/// An entry that is removed stays in its place as a dead one, so that those behind it are not shifted. A run that
/// is put beside it takes its place. There are at most 64 dead entries more than live ones (`few` of `AreRuns`).
#[derive(Drop, Debug)]
pub struct Runs {
    entries: Vec<Entry>,
    dead: usize,
    // The places behind the last run that was put and behind the last that was removed: where blocks are written over
    // in order, the next ones stand there. Once the dead entries were taken away they may be wrong, which costs the
    // next call a search by halves.
    behind_put: usize,
    behind_removed: usize,
}

impl Model for Runs {
    ghost use Rattle.std.specs.Prelude.{List};
    ghost use Rattle.space_alloc.specs.declared.entry.Entry.{Entry};
    ghost use Rattle.space_alloc.specs.Entries.{live_of, AreRuns};

    ghost Value = { List Entry };

    ghost view = { λ runs. live_of runs.entries.items };

    ghost invariant = { λ runs. AreRuns runs.entries.items runs.dead };
}

impl Runs {
    pub fn new(alloc: Global) -> Runs
        ensures value { result ≡ [] }
    {
        Runs {
            entries: Vec::new(alloc),
            dead: 0,
            behind_put: 0,
            behind_removed: 0,
        }
    }

    /// How many entries there are, the dead ones too.
    pub fn places(&self) -> usize
        ensures enough { length self.now ≤ result }
        ensures most { result ≤ 2 * length self.now + 64 }
        ensures few { result < 2 ^ 62 }
    {
        self.entries.as_slice().len()
    }

    /// Puts a run among the others. Those behind it are shifted only where no dead entry stands beside it.
    pub fn insert(&mut self, entry: Entry) -> Result<(), AllocError>
        requires some { 0 < entry.len }
        requires elsewhere { All (λ other. other.start ≢ entry.start) self.old }
        ensures ok { OnOk result (Gains self.old self.new entry) }
        ensures err { OnErr result (self.new ≡ self.old) }
    {
        match gap::find(&self.entries, entry.start, self.behind_put) {
            Gap::Dead(at) => {
                self.entries[at] = entry;
                self.dead -= 1;
                self.behind_put = at + 1;
            }
            Gap::Between(at) => {
                self.entries.insert(at, entry)?;
                self.behind_put = at + 1;
            }
        }
        Ok(())
    }

    /// Takes away a run that is listed.
    ///
    /// Where too many entries are dead then, one pass takes them all away. It looks at less than twice as many
    /// entries as were removed since the last pass.
    pub fn remove(&mut self, entry: &Entry)
        requires listed { Contains self.old entry.now }
        ensures { Gains self.new self.old entry.now }
    {
        let at = gap::place(&self.entries, entry.start, self.behind_removed);
        self.entries[at] = Entry {
            start: entry.start,
            len: 0,
        };
        self.dead += 1;
        self.behind_removed = at + 1;
        let live = self.entries.len() - self.dead;
        if self.dead > FEW + live {
            compact(&mut self.entries);
            self.dead = 0;
        }
    }
}

/// Takes the dead entries away, in one pass.
fn compact(entries: &mut Vec<Entry>)
    ensures { entries.new.items ≡ live_of entries.old.items }
{
    entries.retain(|entry| entry.is_live());
}
