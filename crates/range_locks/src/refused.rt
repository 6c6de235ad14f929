// Why a range isn't granted.

#[derive(Clone, Copy, Debug, PartialEq, Eq)]
pub enum LockRefused {
    /// The actor whose hold stands in the way, the lowest where there are several.
    Busy { by: u8 },
    NoMemory,
}
