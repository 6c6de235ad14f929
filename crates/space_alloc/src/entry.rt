// A run of sectors in use.
ghost use Rattle.std.specs.Prelude.{◌≡◌, ◌+◌, ◌<◌, ◌^◌};
ghost use Rattle.space_alloc.specs.Entries.{is_live};

/// Sectors from `start` on.
#[derive(Clone, Copy, Debug)]
pub struct Entry {
    pub start: u64,
    pub len: u64,
}

impl Entry {
    /// The sector after the last.
    pub fn end(&self) -> u64
        requires { self.now.start + self.now.len < 2 ^ 64 }
        ensures { result ≡ self.now.start + self.now.len }
    {
        self.start + self.len
    }

    /// Whether the run has sectors. Without any it is dead: it was given back.
    pub fn is_live(&self) -> bool
        ensures { result ≡ is_live self.now }
    {
        0 < self.len
    }
}
