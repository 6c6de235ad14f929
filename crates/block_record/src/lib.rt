//! The index page: one entry for each block, in the order of their ids.
//!
//! The grammar of a page is what an encoder writes, so a page has one list of entries at most.
//! Read `specs/Page.antt`, then `specs/Index.antt`, which says where other bytes go wrong. Numbers
//! stand with their highest byte first; `SectorWriter` and the functions of `numbers.rt` write and
//! read them, here and in the uberblock. Stands on no other crate.
#![tactic(auto)]

mod encode;
mod entry;
mod numbers;
mod read;
mod sector;

pub use encode::{encode_index, index_sector, page_sectors};
pub use entry::IndexEntry;
pub use numbers::{digest_at, u32_at, u64_at};
pub use read::{IndexRefused, read_index};
pub use sector::SectorWriter;
