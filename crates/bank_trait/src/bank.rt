// Several devices of equally many sectors of 512 bytes.
ghost use Rattle.std.specs.Prelude.{◌≡◌, ◌<◌, ℕ, List, Some, OnOk, OnErr};
ghost use Rattle.bank_trait.specs.Causes.{FaultCounted, FailedOnce};
ghost use Rattle.bank_trait.specs.Disk.{Disk, Unchanged, Wrote, Synced, Lawful};

use crate::Failed;

pub trait Bank {
    /// What the devices hold and what a crash may leave of it.
    ghost disk: { Self → Disk };

    fn devices(&self) -> u32
        ensures { result ≡ (disk self.now).devices };

    fn sectors(&self) -> u64
        ensures { result ≡ (disk self.now).sectors };

    fn read(&mut self, device: u32, sector: u64, into: &mut [u8; 512]) -> Result<(), Failed>
        requires device { device < (disk self.old).devices }
        requires sector { sector < (disk self.old).sectors }
        ensures bytes { OnOk result ((bytes : List ℕ)
            → (disk self.old).reads device sector ≡ Some bytes → into.new ≡ bytes) }
        ensures failed { OnErr result (FaultCounted ((disk self.old).faults device) ((disk self.new).faults device)) }
        ensures unchanged { Unchanged (disk self.old) (disk self.new) }

        // A read that fails is counted once, on its device alone; one that goes well changes nothing at all.
        ensures once { OnErr result (FailedOnce (disk self.old).faults (disk self.new).faults device) }
        ensures well { OnOk result (disk self.new ≡ disk self.old) };

    fn write(&mut self, device: u32, sector: u64, from: &[u8; 512]) -> Result<(), Failed>
        requires device { device < (disk self.old).devices }
        requires sector { sector < (disk self.old).sectors }
        ensures { Wrote (disk self.old) (disk self.new) device sector from.now result };

    fn sync(&mut self, device: u32) -> Result<(), Failed>
        requires { device < (disk self.old).devices }
        ensures { Synced (disk self.old) (disk self.new) device result };

    /// What is certain to stay is what is read, and where the bytes are certain the sector could hold
    /// no others.
    ghost lawful: { (b : Self) → Lawful (disk b) };
}
