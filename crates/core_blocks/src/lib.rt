//! The blocks of a pool and the sectors that they take, kept in step.
//!
//! Each block has its sectors, and a put under way too; those of a block that is gone are held back
//! until a group begun after that is answered. So the index of a group always fits its uberblock,
//! and no put touches a block of the last answered group. Plain data: nothing here calls a device.
//! Read `specs/Blocks.antt`, then `Blocks`; `specs/Kept.antt` has the law, and `specs/Usage.antt` says
//! how much is in use, and that a space without a free run of some length is tight. Stands on
//! `block_table` and `space_alloc`.
#![tactic(auto)]

mod blocks;
mod index_page;
mod layouts;
mod loading;
mod range;
mod refused;
mod sectors;

pub use blocks::Blocks;
pub use index_page::IndexPage;
pub use range::PutRange;
pub use refused::PutRefused;
