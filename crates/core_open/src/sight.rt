// What a look at a pool tells.
use uberblock_ring::{DeviceSet, Uber};

/// What a look at a pool tells.
#[derive(Clone, Copy, Debug)]
pub struct Look {
    /// The uberblock that an opening would choose, as it stands on a device.
    pub uber: Uber,
    /// Devices that failed in the look. They weren't called again.
    pub silent: DeviceSet,
    /// Devices of the pool that are out.
    pub out: DeviceSet,
}
