// Why a run isn't given out.

#[derive(Clone, Copy, Debug, PartialEq, Eq)]
pub enum TakeRefused {
    /// No run of so many free sectors is left.
    NoSpace { sectors: u64 },
    /// There is one, but each overlaps an exclusive hold; the actor that is in the way of the lowest.
    Busy { by: u8 },
    NoMemory,
}
