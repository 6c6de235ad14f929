//! The device calls of one block: its columns are written to each place at which they have to be
//! right, and read where their rows stand.
//!
//! A device whose call fails is out from then on, and one that is out is passed over. Where what was
//! read has another digest, devices are suspected. Read `specs/Writing.antt`, `specs/Reading.antt`,
//! `specs/Got.antt` and `specs/Asked.antt`, and for a block that is written or read one call at a time
//! `specs/BlockTurns.antt`. Stands on `core_state`, `shadow_write` and `reconstruct`.
#![tactic(auto)]

mod block_read;
mod block_write;
mod checking;
mod columns;
mod columns_read;
mod fetching;
mod reading;
mod refused;
mod shared_columns;
mod standing;
mod widths;
mod writing;

pub use block_read::BlockRead;
pub use block_write::BlockWrite;
pub use columns_read::ColumnsRead;
pub use fetching::checked_bytes;
pub use reading::read_column;
pub use refused::FetchRefused;
pub use shared_columns::SharedColumns;
pub use standing::spot_of;
pub use widths::Widths;
pub use writing::write_column;
