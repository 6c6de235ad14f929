// An uberblock as a device shows it.

use uberblock_ring::Uber;

/// An uberblock, and the device in whose ring it stands.
#[derive(Clone, Copy, Debug, PartialEq, Eq)]
pub struct RingUber {
    pub device: u32,
    pub uber: Uber,
}
