// What a put under way has taken.
ghost use Rattle.std.specs.Prelude.{◌≡◌, ◌≤◌};
ghost use Rattle.block_record.specs.Bytes.{IsDigest};
ghost use Rattle.block_record.specs.Page.{IsRightEntry};
ghost use Rattle.core_blocks.specs.Blocks.{Blocks, IsUnderWay, range_of};
ghost use Rattle.core_blocks.specs.Puts.{IsRangeFor};

use block_record::IndexEntry;
use row_layout::Layout;

/// The sectors that a put has taken for a block of this id, and the group in which it is born.
///
/// A put ends once: with the entry that its range is turned into, or by giving the range up.
#[derive(Drop, Debug, PartialEq, Eq)]
pub struct PutRange {
    pub id: u64,
    pub birth: u64,
    pub layout: Layout,
}

impl PutRange {
    /// The entry of the block that was written here, of so many bytes with this SHA-256 digest.
    pub fn into_entry(self, len_bytes: u32, digest: [u8; 32]) -> IndexEntry
        requires born { 1 ≤ self.birth }
        requires some { 1 ≤ len_bytes }
        requires few { len_bytes ≤ 65536 }
        requires digest { IsDigest digest }
        ensures value { result ≡ record {
          id = self.id;
          start = self.layout.start;
          len = len_bytes;
          birth = self.birth;
          digest = digest;
        } }
        ensures right { IsRightEntry result }

        // The put may end with it.
        ensures under_way { (blocks : Blocks) → IsUnderWay blocks self
            → IsRangeFor blocks self.id len_bytes self.birth self
            → IsUnderWay blocks (range_of blocks.parity blocks.births result) }
    {
        IndexEntry {
            id: self.id,
            start: self.layout.start(),
            len: len_bytes,
            birth: self.birth,
            digest,
        }
    }
}
