// A ring that is read one slot a turn.
ghost use Rattle.std.specs.Prelude.{◌≡◌, ◌+◌, ◌<◌, ◌≤◌, ◌↔◌, IsTrue, None, OnErr, OnOk};
ghost use Rattle.bank_trait.specs.Causes.{FaultCounted};
ghost use Rattle.bank_trait.specs.Disk.{Unchanged};
ghost use Rattle.attach_ring.specs.Ring.{ReadsSlot};

use crate::taken::lowest_taken;
use bank_trait::{Bank, Failed};
use std::marker::Model;
use uberblock_ring::RING_SLOTS;

/// How far a device's ring was read: so many slots, and the lowest of them that shows an uberblock.
#[derive(Drop)]
pub struct RingRead {
    device: u32,
    slots: u32,
    taken: Option<u32>,
}

impl Model for RingRead {
    ghost use Rattle.std.specs.Prelude.{◌≤◌};
    ghost use Rattle.attach_ring.specs.Ring.{RingRead as RingReadOf};

    ghost Value = { RingReadOf };

    ghost view = { λ ring. record { device = ring.device; slots = ring.slots; taken = ring.taken } };

    ghost invariant = { λ ring. ring.slots ≤ 32 };
}

impl RingRead {
    /// The ring of this device, of which nothing was read.
    pub fn new(device: u32) -> RingRead
        ensures { result ≡ record { device = device; slots = 0; taken = None } }
    {
        RingRead {
            device,
            slots: 0,
            taken: None,
        }
    }

    /// The device whose ring it is.
    pub fn device(&self) -> u32
        ensures { result ≡ self.now.device }
    {
        self.device
    }

    /// Whether all slots were read.
    pub fn is_whole(&self) -> bool
        ensures whole { IsTrue result ↔ (self.now.slots ≡ 32) }
        ensures left { (IsTrue result → ⊥) → self.now.slots < 32 }
    {
        self.slots == RING_SLOTS
    }

    /// The lowest slot that shows an uberblock, of those that were read.
    pub fn taken(&self) -> Option<u32>
        ensures { result ≡ self.now.taken }
    {
        self.taken
    }

    /// Reads the next slot. A read that fails leaves the ring as far as it was read.
    pub fn step<B: Bank>(&mut self, bank: &mut B) -> Result<(), Failed>
        requires left { self.old.slots < 32 }
        requires device { self.old.device < (B.disk bank.old).devices }
        requires ring { 32 ≤ (B.disk bank.old).sectors }
        ensures reads { OnOk result (ReadsSlot (B.disk bank.old) self.old self.new) }
        ensures err { OnErr result (self.new ≡ self.old) }
        ensures failed { OnErr result (FaultCounted ((B.disk bank.old).faults self.old.device)
            ((B.disk bank.new).faults self.old.device)) }
        ensures unchanged { Unchanged (B.disk bank.old) (B.disk bank.new) }
    {
        let mut bytes = [0; 512];
        bank.read(self.device, u64::from(self.slots), &mut bytes)?;
        self.taken = lowest_taken(self.taken, &bytes, self.slots);
        self.slots += 1;
        Ok(())
    }
}
