// Which calls fail, how many were made, and how often each device has failed.
ghost use Rattle.std.specs.Prelude.{◌≡◌, ◌<◌, ◌≤◌, ◌↔◌, ℕ, false, IsTrue, Contains, Any, length, slice_index};
ghost use Rattle.bank_trait.specs.Causes.{FaultCounted, FailedOnce, NoneFailed, counted, counted_on};
ghost use Rattle.bank_mem.specs.Listed.{IsListedCall};

#[derive(Drop)]
pub struct Plan {
    /// Calls made on all devices.
    pub total: u64,
    /// Calls made on each device.
    pub made: Vec<u64>,
    pub faults: Vec<u64>,
    /// The calls that fail, by device and number on it.
    pub fails: Vec<(u32, u64)>,
    /// From which number on all calls of a device fail.
    pub starts: Vec<(u32, u64)>,
    ghost numbered: { length made.items ≡ length faults.items },
}

// Whether a device's call of this number is on the list.
fn is_among(fails: &[(u32, u64)], device: u32, number: u64) -> bool
    ensures { IsTrue result ↔ Contains fails.now (device, number) }
{
    fails.contains(&(device, number))
}

// Whether a device's calls fail from this number, or from one before it.
fn is_begun(starts: &[(u32, u64)], device: u32, number: u64) -> bool
    ensures { IsTrue result ↔ Any (λ s. (s.0 ≡ device) × (s.1 ≤ number)) starts.now }
{
    starts.iter().any(|s| s.0 == device && s.1 <= number)
}

// Whether a device's call of this number fails.
fn is_listed(fails: &[(u32, u64)], starts: &[(u32, u64)], device: u32, number: u64) -> bool
    ensures { IsTrue result ↔ IsListedCall fails.now starts.now device number }
{
    is_among(fails, device, number) || is_begun(starts, device, number)
}

impl Plan {
    /// Whether the next call on this device fails, which counts it.
    pub fn fails_now(&mut self, device: u32) -> bool
        requires { device < length self.old.faults.items }
        ensures len { length self.new.faults.items ≡ length self.old.faults.items }
        ensures faults { (d : ℕ) → slice_index self.old.faults.items d
            ≤ slice_index self.new.faults.items d }
        ensures counted { IsTrue result → FaultCounted (slice_index self.old.faults.items device)
            (slice_index self.new.faults.items device) }
        ensures once { IsTrue result → FailedOnce (slice_index self.old.faults.items)
            (slice_index self.new.faults.items) device }
        ensures well { result ≡ false → NoneFailed (slice_index self.old.faults.items)
            (slice_index self.new.faults.items) }
        ensures fails { IsTrue result ↔ IsListedCall self.old.fails.items self.old.starts.items device
            (slice_index self.old.made.items device) }
        ensures made { (d : ℕ) → slice_index self.new.made.items d
            ≡ counted_on (slice_index self.old.made.items) device d }
        ensures total { self.new.total ≡ counted self.old.total }
        ensures listed { self.new.fails.items ≡ self.old.fails.items }
        ensures starts { self.new.starts.items ≡ self.old.starts.items }
    {
        let d = device as usize;
        let number = self.made[d];
        let listed = is_listed(&self.fails, &self.starts, device, number);
        self.made[d] = number.saturating_add(1);
        self.total = self.total.saturating_add(1);
        if listed {
            self.faults[d] = self.faults[d].saturating_add(1);
        }
        listed
    }

    /// Counts a failure of a device.
    pub fn count_fault(&mut self, device: u32)
        requires { device < length self.old.faults.items }
        ensures len { length self.new.faults.items ≡ length self.old.faults.items }
        ensures faults { (d : ℕ) → slice_index self.old.faults.items d
            ≤ slice_index self.new.faults.items d }
        ensures counted { FaultCounted (slice_index self.old.faults.items device)
            (slice_index self.new.faults.items device) }
        ensures once { FailedOnce (slice_index self.old.faults.items)
            (slice_index self.new.faults.items) device }
        ensures made { self.new.made.items ≡ self.old.made.items }
        ensures total { self.new.total ≡ self.old.total }
        ensures listed { self.new.fails.items ≡ self.old.fails.items }
        ensures starts { self.new.starts.items ≡ self.old.starts.items }
    {
        let d = device as usize;
        self.faults[d] = self.faults[d].saturating_add(1);
    }
}
