// A sector of a device.

#[derive(Clone, Copy, Debug, PartialEq, Eq)]
pub struct Spot {
    pub device: u32,
    pub device_sector: u64,
}
