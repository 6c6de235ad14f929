// The layout of one block.

ghost use Rattle.std.specs.Prelude.{◌≡◌, ℕ, ◌+◌, ◌%◌, ◌^◌, ◌<◌, ◌≤◌, ◌≢◌, ◌↔◌};
ghost use Rattle.row_layout.specs.declared.column.Part.TheVariants.{Content, Missing};
ghost use Rattle.row_layout.specs.Layout.{IsColumn, whole_rows, left_over, rows_of, columns_of, columns_in, total_of};
ghost use Rattle.row_layout.specs.Layout.{allocated_of, sector_of, end_of, content_before, part_of, column_of};
ghost use Rattle.row_layout.specs.Standing.{IsWithinLimits, IsOnlyPlace, StandsOnce};

use crate::{Column, Holder, Part};
use std::marker::Model;

/// Where a block starts, how many sectors of content it has, and the parity and width that it was
/// born with. How its content fills rows is kept beside, so that no call divides for that.
#[derive(Clone, Copy, Debug, PartialEq, Eq)]
pub struct Layout {
    start: u64,
    sectors: u32,
    parity: u32,
    width: u32,
    whole_rows: u32,
    left_over: u32,
}

impl Model for Layout {
    ghost use Rattle.row_layout.specs.Layout.{Layout, left_over as left_over_of, whole_rows as whole_rows_of};
    ghost use Rattle.row_layout.specs.Standing.{KeepsRows};

    ghost Value = { Layout };

    ghost view = { λ a. record { start = a.start; sectors = a.sectors; parity = a.parity; width = a.width } };

    ghost invariant = { λ a. KeepsRows
        (record { start = a.start; sectors = a.sectors; parity = a.parity; width = a.width }) a.whole_rows a.left_over };

    ghost inverse = { λ d. record {
      start = d.start;
      sectors = d.sectors;
      parity = d.parity;
      width = d.width;
      whole_rows = whole_rows_of d;
      left_over = left_over_of d;
    } };
}

impl Layout {
    /// The layout of a block that starts at this sector of the pool.
    pub fn of(start: u64, sectors: u32, parity: u32, width: u32) -> Layout
        requires start { start < 2 ^ 54 }
        requires content { 1 ≤ sectors }
        requires few { sectors ≤ 128 }
        requires parity { 1 ≤ parity }
        requires parity_few { parity ≤ 3 }
        requires width { parity < width }
        requires narrow { width ≤ 64 }
        ensures value { result
            ≡ record { start = start; sectors = sectors; parity = parity; width = width } }
        ensures within { IsWithinLimits result }

        // No content is left out, and none stands twice.
        ensures once { (content : ℕ) → content < sectors → StandsOnce result content }
    {
        Layout {
            start,
            sectors,
            parity,
            width,
            whole_rows: sectors / (width - parity),
            left_over: sectors % (width - parity),
        }
    }

    /// The block's first sector.
    pub fn start(&self) -> u64
        ensures value { result ≡ self.now.start }
        ensures within { IsWithinLimits self.now }
    {
        self.start
    }

    /// Sectors of content.
    pub fn sectors(&self) -> u32
        ensures value { result ≡ self.now.sectors }
        ensures within { IsWithinLimits self.now }
    {
        self.sectors
    }

    /// Parity columns of each row.
    pub fn parity(&self) -> u32
        ensures value { result ≡ self.now.parity }
        ensures within { IsWithinLimits self.now }
    {
        self.parity
    }

    /// Sectors from the begin of one row to that of the next.
    pub fn width(&self) -> u32
        ensures value { result ≡ self.now.width }
        ensures within { IsWithinLimits self.now }
    {
        self.width
    }

    fn whole_rows(&self) -> u32
        ensures { result ≡ whole_rows self.now }
    {
        self.whole_rows
    }

    fn left_over(&self) -> u32
        ensures value { result ≡ left_over self.now }
        ensures within { IsWithinLimits self.now }
    {
        self.left_over
    }

    /// Rows, the last one perhaps short.
    #[tactic(auto, using(crate::proofs::Counts::rows_short, crate::proofs::Counts::rows_few, crate::proofs::Counts::rows_some,))]
    pub fn rows(&self) -> u32
        ensures value { result ≡ rows_of self.now }
        ensures some { 0 < result }
        ensures few { result ≤ self.now.sectors }
        ensures within { IsWithinLimits self.now }
    {
        if self.left_over() == 0 {
            self.whole_rows()
        } else {
            self.whole_rows() + 1
        }
    }

    /// Columns of the first row, which count in the parity of each row.
    pub fn cols(&self) -> u32
        ensures value { result ≡ columns_of self.now }
        ensures few { result ≤ self.now.width }
        ensures parity { self.now.parity < result }
    {
        if self.whole_rows() > 0 {
            self.width
        } else {
            self.left_over() + self.parity
        }
    }

    /// Columns of a row that hold content or parity.
    pub fn columns_in(&self, row: u32) -> u32
        requires row { row < rows_of self.now }
        ensures value { result ≡ columns_in self.now row }
        ensures few { result ≤ columns_of self.now }
        ensures parity { self.now.parity < result }
    {
        if row < self.whole_rows() {
            self.width
        } else {
            self.left_over() + self.parity
        }
    }

    /// Sectors with content or parity.
    pub fn total(&self) -> u64
        ensures value { result ≡ total_of self.now }
        ensures some { self.now.sectors < result }
        ensures few { result ≤ 512 }
    {
        u64::from(self.sectors) + u64::from(self.parity) * u64::from(self.rows())
    }

    /// Sectors that the block takes. Those after `total` are never written.
    pub fn alloc_size(&self) -> u64
        ensures value { result ≡ allocated_of self.now }
        ensures total { total_of self.now ≤ result }
        ensures few { result ≤ total_of self.now + self.now.parity }
    {
        let share = u64::from(self.parity) + 1;
        (self.total() + u64::from(self.parity)) / share * share
    }

    /// The pool's sector of a row and column.
    pub fn sector_of(&self, row: u32, column: u32) -> u64
        requires row { row < rows_of self.now }
        requires column { column ≤ columns_of self.now }
        ensures value { result ≡ sector_of self.now row column }
    {
        self.start + u64::from(row) * u64::from(self.width) + u64::from(column)
    }

    /// The sector after the row's last one.
    pub fn end_of(&self, row: u32) -> u64
        requires row { row < rows_of self.now }
        ensures value { result ≡ end_of self.now row }
    {
        self.sector_of(row, self.columns_in(row))
    }

    /// The sector of a row and column, and what it holds.
    pub fn column(&self, row: u32, column: u32) -> Column
        requires row { row < rows_of self.now }
        requires column { column < columns_of self.now }
        ensures value { result ≡ column_of self.now row column }
        ensures missing { (result.part ≡ Missing) ↔ (columns_in self.now row ≤ column) }
        ensures inside { result.part ≢ Missing
            → result.sector < self.now.start + total_of self.now }

        // No two columns of a row are on one device.
        ensures apart { (width other : ℕ) → columns_of self.now ≤ width
            → other < columns_of self.now → other ≢ column
            → sector_of self.now row other % width ≢ result.sector % width }
    {
        Column {
            sector: self.sector_of(row, column),
            part: self.part(row, column),
        }
    }

    /// The row and column that hold this content sector.
    pub fn holder(&self, content: u32) -> Holder
        requires content { content < self.now.sectors }
        ensures place { IsOnlyPlace self.now content result.row result.column }
        ensures behind_parity { self.now.parity ≤ result.column }
    {
        let rows = self.rows();
        let left_over = self.left_over();
        // what stands in the columns that the last row reaches
        let reached = left_over * rows;
        if left_over == 0 || content < reached {
            Holder {
                row: content % rows,
                column: self.parity() + content / rows,
            }
        } else {
            let behind = content - reached;
            Holder {
                row: behind % (rows - 1),
                column: self.parity() + left_over + behind / (rows - 1),
            }
        }
    }

    fn part(&self, row: u32, column: u32) -> Part
        requires row { row < rows_of self.now }
        requires column { column < columns_of self.now }
        ensures value { result ≡ part_of self.now row column }
        ensures missing { (result ≡ Missing) ↔ (columns_in self.now row ≤ column) }
        ensures within { IsWithinLimits self.now }
    {
        if column < self.parity {
            Part::Parity(column)
        } else if column < self.columns_in(row) {
            Part::Content(self.content_at(row, column - self.parity))
        } else {
            Part::Missing
        }
    }

    /// The content sector of a row and content column, whose columns before are counted whole.
    fn content_at(&self, row: u32, column: u32) -> u32
        requires row { row < rows_of self.now }
        requires column { column + self.now.parity < columns_in self.now row }
        ensures value { result ≡ content_before self.now column + row }
    {
        let rows = self.rows();
        let left_over = self.left_over();
        if left_over == 0 || column < left_over {
            column * rows + row
        } else {
            left_over * rows + (column - left_over) * (rows - 1) + row
        }
    }
}
