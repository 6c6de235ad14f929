// The index page of a group and its digest.
ghost use Rattle.std.specs.Prelude.{◌≡◌, ◌≤◌, IfOk, length};
ghost use Rattle.block_record.specs.Page.{IsIndex};
ghost use Rattle.core_blocks.specs.IndexPage.{IsDigestedPage};

use block_record::{IndexEntry, encode_index};
use sha2::{Digest, Sha256};
use std::alloc::{AllocError, Global};

/// The page of an index as each device is given it, and its digest as the uberblock records it.
#[derive(Drop)]
pub struct IndexPage {
    pub bytes: Vec<u8>,
    pub digest: [u8; 32],
}

impl IndexPage {
    /// The page of these entries.
    pub(crate) fn of(alloc: Global, entries: &[IndexEntry]) -> Result<IndexPage, AllocError>
        requires index { IsIndex entries.now }
        requires few { length entries.now ≤ 512 }
        ensures value { IfOk result (IsDigestedPage entries.now) }
    {
        let bytes = encode_index(alloc, entries)?;
        let digest = Sha256::digest(bytes.as_slice());
        Ok(IndexPage { bytes, digest })
    }

    /// The same page once more.
    pub(crate) fn try_copy(&self, alloc: Global) -> Result<IndexPage, AllocError>
        ensures bytes { IfOk result (λ copy. copy.bytes.items ≡ self.now.bytes.items) }
        ensures digest { IfOk result (λ copy. copy.digest ≡ self.now.digest) }
    {
        let bytes = Vec::from_slice(alloc, self.bytes.as_slice())?;
        Ok(IndexPage {
            bytes,
            digest: self.digest,
        })
    }
}
