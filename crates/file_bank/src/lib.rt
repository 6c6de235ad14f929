//! A bank of devices over files, one file a device.
//!
//! `BlockFile` says what one file holds and what a crash may leave of it; `FileBank` makes a bank of
//! several, with one clock, and is proved to be the bank that its files are together. Which byte of
//! which file a sector begins at is decided and proved here. Syncs of several files may overlap.
//! `MemFile` is a file in memory, for tests. Read `specs/BlockFile.antt`, then `specs/Files.antt`. Stands
//! on `bank_trait`.
#![tactic(auto)]

mod bank;
mod block_file;
mod gathered;
mod kept_row;
mod mem_file;
mod opened;
mod read_ahead;
mod read_piece;
mod record;
mod row_file;
mod slot;

pub use bank::FileBank;
pub use block_file::{BlockFile, ReadFault, count_call};
pub use gathered::Gathered;
pub use mem_file::MemFile;
pub use read_ahead::ReadAhead;
pub use row_file::{MOST_IN_ROW, RowFile};
pub use slot::SECTOR_BYTES;
