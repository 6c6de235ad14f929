// A set of devices.
ghost use Rattle.std.specs.Prelude.{◌≡◌, ◌<◌, ◌≤◌, ◌↔◌, ◌^◌, ℕ, false, true, IfSome, IsTrue, MatchOption};
ghost use Rattle.uberblock_ring.specs.Devices.{count_below, count_of, has_device, with_device};

use std::marker::Model;

/// A set of devices below 64. As a number, as it stands in an uberblock, bit `d` is for device `d`.
#[derive(Clone, Copy, Debug, PartialEq, Eq)]
pub struct DeviceSet {
    bits: u64,
}

impl Model for DeviceSet {
    ghost use Rattle.std.specs.Prelude.{ℕ, ◌^◌, ◌<◌};

    ghost Value = { ℕ };

    ghost view = { λ set. set.bits };

    ghost invariant = { λ set. set.bits < 2 ^ 64 };

    ghost inverse = { λ bits. record { bits = bits } };
}

impl DeviceSet {
    pub fn empty() -> DeviceSet
        ensures value { result ≡ 0 }
    {
        DeviceSet { bits: 0 }
    }

    pub fn from_bits(bits: u64) -> DeviceSet
        ensures value { result ≡ bits }
    {
        DeviceSet { bits }
    }

    pub fn bits(&self) -> u64
        ensures value { result ≡ self.now }
    {
        self.bits
    }

    pub fn is_empty(&self) -> bool
        ensures value { IsTrue result ↔ (self.now ≡ 0) }
    {
        self.bits == 0
    }

    pub fn has(&self, device: u32) -> bool
        ensures value { result ≡ has_device self.now device }
    {
        device < 64 && (self.bits >> device) % 2 == 1
    }

    /// Puts a device into the set, whether it is there already or not.
    pub fn insert(&mut self, device: u32)
        requires fits { device < 64 }
        ensures value { self.new ≡ with_device self.old device }
    {
        self.bits |= 1 << device;
    }

    /// How many devices the set has.
    pub fn len(&self) -> u32
        ensures value { result ≡ count_of self.now }

        // Where all are below a width, those below it are all.
        ensures below { (width : ℕ) → self.now < 2 ^ width → width ≤ 64
            → result ≡ count_below self.now width }
    {
        self.bits.count_ones()
    }

    /// Whether these are more devices than there are parities: then a pool of which they are out bears it no longer.
    pub fn exceeds(&self, parity: u32) -> bool
        ensures value { IsTrue result ↔ (parity < count_of self.now) }
    {
        self.len() > parity
    }

    /// The lowest device of the set.
    pub fn lowest(&self) -> Option<u32>
        ensures there { MatchOption result (self.now ≡ 0)
            (λ device. has_device self.now device ≡ true) }
        ensures lowest { IfSome result (λ device. (other : ℕ) → other < device
            → has_device self.now other ≡ false) }
    {
        if self.bits == 0 {
            return None;
        }
        Some(self.bits.trailing_zeros())
    }
}
