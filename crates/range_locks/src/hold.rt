// A range that is held.
ghost use Rattle.std.specs.Prelude.{◌↔◌, IsTrue};
ghost use Rattle.range_locks.specs.Holds.{ConflictsWith, Precedes, IsSharedFrom};
ghost use Rattle.range_locks.specs.Order.{ComesBefore};

#[derive(Clone, Copy, Debug, PartialEq, Eq)]
pub enum HoldKind {
    Shared,
    Exclusive,
}

/// Sectors from `lo` to below `hi`.
#[derive(Clone, Copy, Debug, PartialEq, Eq)]
pub struct Hold {
    pub lo: u64,
    pub hi: u64,
    pub actor: u8,
    pub kind: HoldKind,
}

impl Hold {
    /// Whether the hold stands in the way of one of this kind and range.
    pub fn blocks(&self, lo: u64, hi: u64, kind: HoldKind) -> bool
        ensures value { IsTrue result ↔ ConflictsWith self.now lo hi kind }
    {
        let is_exclusive = self.kind == HoldKind::Exclusive || kind == HoldKind::Exclusive;
        is_exclusive && self.lo < hi && lo < self.hi
    }

    /// Whether the hold begins lower, or as low with an actor that is no higher.
    pub fn precedes(&self, other: &Hold) -> bool
        ensures value { IsTrue result ↔ Precedes self.now other.now }
    {
        self.lo < other.lo || (self.lo == other.lo && self.actor <= other.actor)
    }

    /// Whether the hold stands before another among shared holds: by start, then by actor, then by end.
    pub fn comes_before(&self, other: &Hold) -> bool
        ensures value { IsTrue result ↔ ComesBefore self.now other.now }
    {
        (self.lo, self.actor, self.hi) < (other.lo, other.actor, other.hi)
    }

    /// Whether the hold is shared and begins at or above this sector.
    pub fn is_shared_from(&self, from: u64) -> bool
        ensures value { IsTrue result ↔ IsSharedFrom self.now from }
    {
        self.kind == HoldKind::Shared && from <= self.lo
    }
}
