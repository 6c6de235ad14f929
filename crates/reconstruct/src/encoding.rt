// A block's rows from its bytes.

ghost use Rattle.std.specs.Prelude.{◌≡◌, ℕ, ◌+◌, ◌*◌, ◌<◌, [], length, slice_index_or, IfOk};
ghost use Rattle.gf_parity.specs.Parity.{parity_column};
ghost use Rattle.row_layout.specs.Layout.{rows_of, columns_of, part_of};
ghost use Rattle.reconstruct.specs.Columns.{content_bytes, row_contents, column_bytes};
ghost use Rattle.reconstruct.specs.Rows.{IsEncoded, sectors_for};

use crate::Rows;
use crate::sectors::{put_sector, zero_columns, zero_sector};
use gf_parity::parity;
use row_layout::{Layout, Part};
use std::alloc::{AllocError, Global};

/// All columns of all rows of a block with these bytes, the missing ones zero.
pub fn encode(alloc: Global, layout: &Layout, bytes: &[u8]) -> Result<Rows, AllocError>
    requires { sectors_for (length bytes.now) ≡ layout.now.sectors }
    ensures { IfOk result (IsEncoded layout.now bytes.now) }
{
    let count = layout.rows() as usize * layout.cols() as usize;
    let mut columns = zero_columns(alloc, count)?;
    encode_rows(layout, bytes, &mut columns);
    Ok(Rows::of(layout, columns))
}

fn encode_rows(layout: &Layout, bytes: &[u8], columns: &mut [[u8; 512]])
    requires { length columns.old ≡ rows_of layout.now * columns_of layout.now }
    ensures { (row column : ℕ) → row < rows_of layout.now → column < columns_of layout.now
        → slice_index_or columns.new (row * columns_of layout.now + column) []
        ≡ column_bytes layout.now bytes.now row column }
{
    for row in 0..layout.rows() {
        encode_row_among(layout, bytes, row, columns);
    }
}

fn encode_row_among(layout: &Layout, bytes: &[u8], row: u32, columns: &mut [[u8; 512]])
    requires row { row < rows_of layout.now }
    requires columns { length columns.old ≡ rows_of layout.now * columns_of layout.now }
    ensures here { (column : ℕ) → column < columns_of layout.now
        → slice_index_or columns.new (row * columns_of layout.now + column) []
        ≡ column_bytes layout.now bytes.now row column }
    ensures before { (place : ℕ) → place < row * columns_of layout.now
        → slice_index_or columns.new place [] ≡ slice_index_or columns.old place [] }
{
    let cols = layout.cols() as usize;
    let (_before, rest) = columns.split_at_mut(row as usize * cols);
    let (here, _after) = rest.split_at_mut(cols);
    encode_row(layout, bytes, row, here);
}

fn encode_row(layout: &Layout, bytes: &[u8], row: u32, columns: &mut [[u8; 512]])
    requires row { row < rows_of layout.now }
    requires columns { length columns.old ≡ columns_of layout.now }
    ensures { (column : ℕ) → column < columns_of layout.now
        → slice_index_or columns.new column [] ≡ column_bytes layout.now bytes.now row column }
{
    let (parity, content) = columns.split_at_mut(layout.parity() as usize);
    fill_content(layout, bytes, row, content);
    fill_parity(layout, content, parity);
}

fn fill_content(layout: &Layout, bytes: &[u8], row: u32, content: &mut [[u8; 512]])
    requires row { row < rows_of layout.now }
    requires columns { length content.old + layout.now.parity ≡ columns_of layout.now }
    ensures { content.new ≡ row_contents layout.now bytes.now row (length content.old) }
{
    let parity = layout.parity();
    for column in parity..layout.cols() {
        put_content(
            layout,
            bytes,
            row,
            column,
            &mut content[(column - parity) as usize],
        );
    }
}

fn put_content(layout: &Layout, bytes: &[u8], row: u32, column: u32, out: &mut [u8; 512])
    requires row { row < rows_of layout.now }
    requires column { column < columns_of layout.now }
    ensures { out.new ≡ content_bytes bytes.now (part_of layout.now row column) }
{
    match layout.column(row, column).part {
        Part::Content(number) => put_sector(bytes, number, out),
        Part::Parity(_) | Part::Missing => *out = zero_sector(),
    }
}

fn fill_parity(layout: &Layout, content: &[[u8; 512]], columns: &mut [[u8; 512]])
    requires { length columns.old ≡ layout.now.parity }
    ensures { (which : ℕ) → which < length columns.old
        → slice_index_or columns.new which [] ≡ parity_column which content.now }
{
    for which in 0..layout.parity() {
        parity(which, content, &mut columns[which as usize]);
    }
}
