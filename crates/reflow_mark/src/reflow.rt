// The state of an expansion.
ghost use Rattle.std.specs.Prelude.{◌≡◌, ◌+◌, ◌<◌, ◌≤◌, ◌^◌, ◌↔◌, IsTrue};
ghost use Rattle.reflow_mark.specs.Reflow.{at_rest, scratch_end, sectors_of, Expands, IsMark, IsRightReflow};
ghost use Rattle.reflow_mark.specs.Standing.{standing, NeedsOld};

use crate::Stand;

/// Data rows of the new width that the scratch area holds.
pub const SCRATCH_ROWS: u64 = 32;

/// None: nothing is moved. Valid: the first sectors are read from the scratch area. Moved: all
/// below the mark is read at its new place.
#[derive(Clone, Copy, Debug, PartialEq, Eq)]
pub enum State {
    None,
    Valid,
    Moved,
}

/// Widths in devices, rows in data rows of a device, the mark in sectors.
#[derive(Clone, Copy, Debug, PartialEq, Eq)]
pub struct Reflow {
    pub from: u32,
    pub to: u32,
    pub rows: u64,
    pub mark: u64,
    pub state: State,
}

impl Reflow {
    /// No expansion.
    pub fn at_rest(width: u32, rows: u64) -> Reflow
        ensures value { result ≡ at_rest width rows }
        ensures right { IsRightReflow result }
    {
        Reflow {
            from: width,
            to: width,
            rows,
            mark: 0,
            state: State::None,
        }
    }

    /// Whether an expansion runs.
    pub fn expands(&self) -> bool
        ensures value { IsTrue result ↔ Expands self.now }
    {
        self.from < self.to && self.to - self.from == 1
    }

    /// Sectors below this go through the scratch area.
    pub fn scratch_end(&self) -> u64
        ensures value { result ≡ scratch_end self.now }
    {
        SCRATCH_ROWS * u64::from(self.to)
    }

    /// The sectors of the pool, which an expansion moves.
    pub fn sectors(&self) -> u64
        requires rows { self.now.rows ≤ 65536 }
        ensures value { result ≡ sectors_of self.now }
    {
        self.rows * u64::from(self.from)
    }

    /// Whether mark and state are such as these widths allow.
    pub fn is_right(&self) -> bool
        requires rows { self.now.rows ≤ 65536 }
        ensures value { IsTrue result ↔ IsRightReflow self.now }
    {
        if self.to == self.from {
            return self.mark == 0 && self.state == State::None;
        }
        self.expands() && self.is_at_mark()
    }

    fn is_at_mark(&self) -> bool
        requires rows { self.now.rows ≤ 65536 }
        ensures value { IsTrue result ↔ IsMark self.now.state self.now }
    {
        match self.state {
            State::None => self.mark == 0,
            State::Valid => self.mark == self.scratch_end(),
            State::Moved => self.scratch_end() <= self.mark && self.mark < self.sectors(),
        }
    }

    /// Which copy is read of a row of so many columns that begins at `first`.
    pub fn stands(&self, first: u64, columns: u32) -> Stand
        requires fits { first < 2 ^ 54 }
        ensures value { result ≡ standing self.now first columns }
        ensures old { (result ≡ Stand.Old)
            ↔ NeedsOld self.now.state self.now.mark (first + columns) }
    {
        let is_below = first + u64::from(columns) <= self.mark;
        match self.state {
            State::Valid if is_below => Stand::Scratch,
            State::Moved if is_below => Stand::New,
            _ => Stand::Old,
        }
    }
}
