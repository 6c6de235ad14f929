// The uberblock.
ghost use Rattle.std.specs.Prelude.{◌≡◌, ◌+◌, ◌≤◌};
ghost use Rattle.uberblock_ring.specs.Header.{FitsHeader, uber_with};
ghost use Rattle.uberblock_ring.specs.Uberblock.{first_uber};
ghost use Rattle.uberblock_ring.specs.Valid.{IsPoolShape, IsRightUber};

use crate::DeviceSet;
use crate::header::Header;
use block_record::digest_at;
use reflow_mark::Reflow;
use sha2::{Digest, Sha256};
use std::marker::Model;
use width_map::Births;

/// What a commit says of the pool, on every device the same: its group, its widths and how far an
/// expansion has come, the devices that are out, and which index page it goes with.
#[derive(Clone, Copy, Debug, PartialEq, Eq)]
pub struct Uber {
    pub(crate) pool: u64,
    pub(crate) group: u64,
    pub(crate) parity: u32,
    pub(crate) reflow: Reflow,
    pub(crate) area: u32,
    pub(crate) out: DeviceSet,
    pub(crate) count: u32,
    pub(crate) digest: [u8; 32],
    pub(crate) births: Births,
}

impl Model for Uber {
    ghost use Rattle.std.specs.Prelude.{◌^◌, ◌<◌};
    ghost use Rattle.block_record.specs.Bytes.{IsDigest};
    ghost use Rattle.uberblock_ring.specs.Uberblock.{Uber as UberOf};

    ghost Value = { UberOf };

    ghost view = { λ u. record {
      pool = u.pool;
      group = u.group;
      parity = u.parity;
      reflow = u.reflow;
      area = u.area;
      out = u.out;
      count = u.count;
      digest = u.digest;
      births = u.births;
    } };

    ghost invariant = { λ u. (u.pool < 2 ^ 64) × IsDigest u.digest };

    ghost inverse = { λ u. record {
      pool = u.pool;
      group = u.group;
      parity = u.parity;
      reflow = u.reflow;
      area = u.area;
      out = u.out;
      count = u.count;
      digest = u.digest;
      births = u.births;
    } };
}

impl Uber {
    /// The first uberblock of a pool of so many devices with so many data rows; its index is empty.
    pub fn first(pool: u64, parity: u32, width: u32, rows: u64) -> Uber
        requires some { 2 ≤ width }
        requires wide { width ≤ 64 }
        ensures value { result ≡ first_uber pool parity width rows }

        // A pool of numbers that it may have begins with a right one.
        ensures right { IsPoolShape parity width rows → IsRightUber result }
    {
        let nothing: [u8; 0] = [];
        Uber {
            pool,
            group: 1,
            parity,
            reflow: Reflow::at_rest(width, rows),
            area: 1,
            out: DeviceSet::empty(),
            count: 0,
            digest: Sha256::digest(nothing),
            births: Births::first(width),
        }
    }

    /// The uberblock that was read with these fields.
    pub(crate) fn with(header: &Header, reflow: Reflow, births: Births) -> Uber
        requires fits { FitsHeader header.now }
        ensures value { result ≡ uber_with header.now reflow births }
    {
        Uber {
            pool: header.pool,
            group: header.group,
            parity: header.parity,
            reflow,
            area: header.area,
            out: DeviceSet::from_bits(header.out),
            count: header.count,
            digest: header.digest,
            births,
        }
    }

    pub fn pool(&self) -> u64
        ensures value { result ≡ self.now.pool }
    {
        self.pool
    }

    pub fn group(&self) -> u64
        ensures value { result ≡ self.now.group }
    {
        self.group
    }

    pub fn parity(&self) -> u32
        ensures value { result ≡ self.now.parity }
    {
        self.parity
    }

    pub fn reflow(&self) -> Reflow
        ensures value { result ≡ self.now.reflow }
    {
        self.reflow
    }

    /// The index area of its page, 0 or 1.
    pub fn area(&self) -> u32
        ensures value { result ≡ self.now.area }
    {
        self.area
    }

    pub fn out(&self) -> DeviceSet
        ensures value { result ≡ self.now.out }
    {
        self.out
    }

    /// How many entries its index page lists.
    pub fn count(&self) -> u32
        ensures value { result ≡ self.now.count }
    {
        self.count
    }

    /// SHA-256 of its index page.
    pub fn digest(&self) -> [u8; 32]
        ensures value { result ≡ self.now.digest }
    {
        self.digest
    }

    pub fn births(&self) -> &Births
        ensures value { result.now ≡ self.now.births }
    {
        &self.births
    }

    pub fn set_group(&mut self, group: u64)
        ensures value { self.new ≡ record self.old { group = group } }
    {
        self.group = group;
    }

    /// Where its index page stands, how many entries that lists, and its SHA-256.
    pub fn set_index(&mut self, area: u32, count: u32, digest: &[u8; 32])
        ensures value { self.new ≡ record self.old {
          area = area;
          count = count;
          digest = digest.now;
        } }
    {
        self.area = area;
        self.count = count;
        self.digest = digest_at(digest, 0);
    }

    pub fn set_widths(&mut self, reflow: Reflow, births: Births)
        ensures value { self.new ≡ record self.old { reflow = reflow; births = births } }
    {
        self.reflow = reflow;
        self.births = births;
    }

    pub fn set_out(&mut self, out: DeviceSet)
        ensures value { self.new ≡ record self.old { out = out } }
    {
        self.out = out;
    }
}
