// The calls that a bank in memory records.
ghost use Rattle.std.specs.Prelude.{◌≡◌, ◌⊎◌, ◌++◌, [], ◌∷◌};

/// A write, a write that failed, or a sync that was carried out; each with its number among all calls
/// of the bank, reads too, from 0. A write that fails leaves what is read as it was, and what a crash
/// leaves in its sector open until the device's next sync. A sector that is spoiled is no call: it has
/// the number of the call that follows.
#[derive(Clone, Copy, Debug)]
pub enum Call {
    Write {
        number: u64,
        device: u32,
        sector: u64,
        bytes: [u8; 512],
    },
    FailedWrite {
        number: u64,
        device: u32,
        sector: u64,
        bytes: [u8; 512],
    },
    Sync {
        number: u64,
        device: u32,
    },
    Spoil {
        number: u64,
        device: u32,
        sector: u64,
        bytes: [u8; 512],
    },
}

impl Call {
    ghost use Rattle.bank_mem.specs.Record.{called_device};

    /// The device that it is for.
    pub fn device(&self) -> u32
        ensures { result ≡ called_device self.now }
    {
        match self {
            Call::Write { device, .. }
            | Call::FailedWrite { device, .. }
            | Call::Sync { device, .. }
            | Call::Spoil { device, .. } => *device,
        }
    }
}

/// Puts a call on record where there is memory for it.
pub fn note(calls: &mut Vec<Call>, call: Call)
    ensures { (calls.new.items ≡ calls.old.items ++ call ∷ []) ⊎ (calls.new.items ≡ calls.old.items) }
{
    let _ = calls.push(call);
}
