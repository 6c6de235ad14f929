// Up to where a search in a list of holds passes over them.
ghost use Rattle.std.specs.Prelude.{◌↔◌, IsTrue};
ghost use Rattle.range_locks.specs.Order.{IsPassed};

use crate::Hold;

/// Which holds are passed over.
#[derive(Clone, Copy)]
pub enum Bound {
    /// Those that come before this one.
    Before(Hold),
    /// Those that end by this sector.
    EndedBy(u64),
}

impl Bound {
    pub fn passes(&self, hold: &Hold) -> bool
        ensures { IsTrue result ↔ IsPassed self.now hold.now }
    {
        match self {
            Bound::Before(bound) => hold.comes_before(bound),
            Bound::EndedBy(sector) => hold.hi <= *sector,
        }
    }
}
