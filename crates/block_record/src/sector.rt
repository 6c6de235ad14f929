// The bytes of a sector, filled from the front.
ghost use Rattle.std.specs.Prelude.{◌≡◌, ◌+◌, ◌-◌, ◌≤◌, ◌++◌, [], length, replicate};
ghost use Rattle.block_record.specs.Bytes.{be32, be64};

use std::marker::Model;

/// A sector that is being written; contracts see the bytes so far.
#[derive(Drop)]
pub struct SectorWriter {
    bytes: [u8; 512],
    len: usize,
}

impl Model for SectorWriter {
    ghost use Rattle.std.specs.Prelude.{ℕ, List, take, ◌≤◌};

    ghost Value = { List ℕ };

    ghost view = { λ writer. take writer.len writer.bytes };

    ghost invariant = { λ writer. writer.len ≤ 512 };
}

impl SectorWriter {
    pub fn new() -> Self
        ensures { result ≡ [] }
    {
        SectorWriter {
            bytes: [0; 512],
            len: 0,
        }
    }

    pub fn put(&mut self, piece: &[u8])
        requires { length self.old + length piece.now ≤ 512 }
        ensures bytes { self.new ≡ self.old ++ piece.now }
        ensures len { length self.new ≡ length self.old + length piece.now }
    {
        let end = self.len + piece.len();
        self.bytes[self.len..end].copy_from_slice(piece);
        self.len = end;
    }

    #[tactic(auto, unfolding(crate::specs::Bytes::be32))]
    pub fn put_u32(&mut self, number: u32)
        requires { length self.old + 4 ≤ 512 }
        ensures bytes { self.new ≡ self.old ++ be32 number }
        ensures len { length self.new ≡ length self.old + 4 }
    {
        self.put(&number.to_be_bytes());
    }

    #[tactic(auto, unfolding(crate::specs::Bytes::be64))]
    pub fn put_u64(&mut self, number: u64)
        requires { length self.old + 8 ≤ 512 }
        ensures bytes { self.new ≡ self.old ++ be64 number }
        ensures len { length self.new ≡ length self.old + 8 }
    {
        self.put(&number.to_be_bytes());
    }

    pub fn put_zeros(&mut self, count: usize)
        requires { length self.old + count ≤ 512 }
        ensures bytes { self.new ≡ self.old ++ replicate count 0 }
        ensures len { length self.new ≡ length self.old + count }
    {
        let end = self.len + count;
        self.bytes[self.len..end].fill(0);
        self.len = end;
    }

    pub fn as_slice(&self) -> &[u8]
        ensures { result.now ≡ self.now }
    {
        &self.bytes[..self.len]
    }

    /// The sector, with zeros where nothing was put.
    pub fn finish(mut self) -> [u8; 512]
        ensures { result ≡ self ++ replicate (512 - length self) 0 }
    {
        let len = self.len;
        self.put_zeros(512 - len);
        let SectorWriter { bytes, len: _ } = self;
        bytes
    }
}
