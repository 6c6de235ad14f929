// From an uberblock to its bytes.
ghost use Rattle.std.specs.Prelude.{◌≡◌, ◌+◌, ◌*◌, ◌≤◌, ◌++◌, [], List, ℕ, length, flat_map};
ghost use Rattle.reflow_mark.specs.Reflow.{IsRightReflow};
ghost use Rattle.uberblock_ring.specs.Uberblock.{birth_bytes, encoded, fields_bytes, magic};

use crate::Uber;
use block_record::SectorWriter;
use sha2::{Digest, Sha256};
use width_map::Birth;

/// The bytes of births and of the zeros behind them.
const REST: usize = 368;

impl Uber {
    /// The copy that stands on a device.
    pub fn encode(&self, device: u32) -> [u8; 512]
        requires rows { self.now.reflow.rows ≤ 65536 }
        requires reflow { IsRightReflow self.now.reflow }
        ensures value { result ≡ encoded self.now device }
    {
        let births = self.births().as_slice();
        let mut sector = SectorWriter::new();
        put_fields(&mut sector, self, device);
        put_births(&mut sector, births);
        sector.put_zeros(REST - 12 * births.len());
        let digest = Sha256::digest(sector.as_slice());
        sector.put(&digest);
        sector.finish()
    }
}

fn put_fields(sector: &mut SectorWriter, uber: &Uber, device: u32)
    requires empty { sector.old ≡ [] }
    requires rows { uber.now.reflow.rows ≤ 65536 }
    requires reflow { IsRightReflow uber.now.reflow }
    ensures bytes { sector.new ≡ fields_bytes uber.now device }
    ensures len { length sector.new ≡ 112 }
{
    put_magic(sector);
    sector.put_u32(1);
    sector.put_u32(device);
    sector.put_u64(uber.pool());
    sector.put_u64(uber.group());
    sector.put_u32(uber.parity());
    let reflow = uber.reflow();
    sector.put_u32(reflow.from);
    sector.put_u32(reflow.to);
    sector.put_u32(uber.area());
    sector.put_u64(reflow.rows);
    sector.put_u64(reflow.pack());
    sector.put_u64(uber.out().bits());
    sector.put_u32(uber.count());
    sector.put_u32(uber.births().as_slice().len() as u32);
    sector.put(&uber.digest());
}

#[tactic(auto, unfolding(crate::specs::Uberblock::magic))]
fn put_magic(sector: &mut SectorWriter)
    requires room { length sector.old + 8 ≤ 512 }
    ensures bytes { sector.new ≡ sector.old ++ magic }
    ensures len { length sector.new ≡ length sector.old + 8 }
{
    sector.put(b"RZXPUB01");
}

fn put_births(sector: &mut SectorWriter, births: &[Birth])
    requires room { length sector.old + 12 * length births.now ≤ 512 }
    ensures bytes { sector.new ≡ sector.old ++ flat_map birth_bytes births.now }
    ensures len { length sector.new ≡ length sector.old + 12 * length births.now }
{
    for birth in births {
        sector.put_u64(birth.group);
        sector.put_u32(birth.width);
    }
}
