// An uberblock as a device shows it.
ghost use Rattle.std.specs.Prelude.{◌≡◌, MatchBool};
ghost use Rattle.uberblock_ring.specs.Choice.{IsAtLeast};

use crate::Uber;
use std::marker::Model;

/// An uberblock that a device shows; `whole` where its page makes it a candidate.
#[derive(Drop)]
pub struct Shown {
    device: u32,
    uber: Uber,
    whole: bool,
}

impl Model for Shown {
    ghost use Rattle.uberblock_ring.specs.Choice.{Shown as ShownOf};

    ghost Value = { ShownOf };

    ghost view = { λ s. record { device = s.device; uber = s.uber; whole = s.whole } };
}

impl Shown {
    pub fn new(device: u32, uber: Uber, whole: bool) -> Shown
        ensures value { result ≡ record { device = device; uber = uber; whole = whole } }
    {
        Shown {
            device,
            uber,
            whole,
        }
    }

    pub fn device(&self) -> u32
        ensures value { result ≡ self.now.device }
    {
        self.device
    }

    pub fn uber(&self) -> &Uber
        ensures value { result.now ≡ self.now.uber }
    {
        &self.uber
    }

    pub fn is_whole(&self) -> bool
        ensures value { result ≡ self.now.whole }
    {
        self.whole
    }

    /// Whether it goes before another: by the greater group, and in one group by the lower device.
    pub fn precedes(&self, other: &Shown) -> bool
        ensures order { MatchBool result (IsAtLeast self.now other.now)
            (IsAtLeast other.now self.now) }
    {
        let own = self.uber.group();
        let others = other.uber.group();
        others < own || others == own && self.device <= other.device
    }
}
