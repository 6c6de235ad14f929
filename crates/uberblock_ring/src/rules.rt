// When an uberblock is right.
ghost use Rattle.std.specs.Prelude.{◌≡◌, ◌+◌, ◌<◌, ◌≤◌, ◌↔◌, ◌^◌, IsTrue};
ghost use Rattle.uberblock_ring.specs.Devices.{count_below};
ghost use Rattle.uberblock_ring.specs.Rules.{HasRightNumbers, HasRightWidths};
ghost use Rattle.uberblock_ring.specs.Valid.{IsRightUber};

use crate::Uber;
use crate::births::are_births_of;

/// The greatest number of a group.
pub const MAX_GROUP: u64 = 1 << 62;

const MAX_WIDTH: u32 = 16;

const MAX_ENTRIES: u32 = 512;

const MIN_ROWS: u64 = 64;
/// The greatest number of data rows of a device.
pub const MAX_ROWS: u64 = 65536;

impl Uber {
    /// Whether each field is right.
    pub fn is_right(&self) -> bool
        ensures value { IsTrue result ↔ IsRightUber self.now }
    {
        if !self.has_right_numbers() {
            return false;
        }
        if !self.has_right_widths() {
            return false;
        }
        if !self.has_right_out() {
            return false;
        }
        let births = self.births().as_slice();
        are_births_of(births, self.parity(), self.reflow().from, self.group())
    }

    fn has_right_numbers(&self) -> bool
        ensures value { IsTrue result ↔ HasRightNumbers self.now }
    {
        let rows = self.reflow.rows;
        (self.group >= 1 && self.group <= MAX_GROUP)
            && (self.parity >= 1 && self.parity <= 3)
            && (rows >= MIN_ROWS && rows <= MAX_ROWS)
            && self.area <= 1
            && self.count <= MAX_ENTRIES
    }

    fn has_right_widths(&self) -> bool
        requires rows { self.now.reflow.rows ≤ 65536 }
        requires parity { self.now.parity ≤ 3 }
        ensures value { IsTrue result ↔ HasRightWidths self.now }
    {
        let reflow = self.reflow();
        reflow.from >= self.parity() + 1 && reflow.to <= MAX_WIDTH && reflow.is_right()
    }

    fn has_right_out(&self) -> bool
        requires narrow { self.now.reflow.to ≤ 16 }
        ensures value { IsTrue result ↔ ((self.now.out < 2 ^ self.now.reflow.to)
            × (count_below self.now.out self.now.reflow.to ≤ self.now.parity)) }
    {
        let out = self.out();
        out.bits() < 1 << self.reflow().to && out.len() <= self.parity()
    }
}
