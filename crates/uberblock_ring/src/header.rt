// The fields of an uberblock as they stand in its bytes.
ghost use Rattle.std.specs.Prelude.{◌≡◌, ◌≤◌, IfSome, length, Some, take};
ghost use Rattle.reflow_mark.specs.declared.reflow.Reflow.{Reflow};
ghost use Rattle.reflow_mark.specs.Reflow.{IsWordOf};
ghost use Rattle.uberblock_ring.specs.Header.{FitsHeader, header_after};

use crate::rules::MAX_ROWS;
use block_record::{digest_at, u32_at, u64_at};
use reflow_mark::Reflow;

/// What was read, before anything is asked of it; `word` is the reflow's.
#[derive(Drop)]
pub struct Header {
    pub pool: u64,
    pub group: u64,
    pub parity: u32,
    pub from: u32,
    pub to: u32,
    pub area: u32,
    pub rows: u64,
    pub word: u64,
    pub out: u64,
    pub count: u32,
    pub births: u32,
    pub digest: [u8; 32],
}

impl Header {
    pub fn read(bytes: &[u8]) -> Header
        requires whole { length bytes.now ≡ 512 }
        ensures fields { take 112 bytes.now ≡ header_after (take 16 bytes.now) result }
        ensures fits { FitsHeader result }
    {
        Header {
            pool: u64_at(bytes, 16),
            group: u64_at(bytes, 24),
            parity: u32_at(bytes, 32),
            from: u32_at(bytes, 36),
            to: u32_at(bytes, 40),
            area: u32_at(bytes, 44),
            rows: u64_at(bytes, 48),
            word: u64_at(bytes, 56),
            out: u64_at(bytes, 64),
            count: u32_at(bytes, 72),
            births: u32_at(bytes, 76),
            digest: digest_at(bytes, 80),
        }
    }

    /// The reflow with this word, if there is one.
    pub fn reflow(&self) -> Option<Reflow>
        ensures some { IfSome result (λ reflow.
            IsWordOf reflow self.now.from self.now.to self.now.rows self.now.word) }
        ensures only { (reflow : Reflow) → self.now.rows ≤ 65536
            → IsWordOf reflow self.now.from self.now.to self.now.rows self.now.word
            → result ≡ Some reflow }
    {
        if self.rows > MAX_ROWS {
            return None;
        }
        Reflow::unpack(self.from, self.to, self.rows, self.word)
    }
}
