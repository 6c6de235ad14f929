// Which copy of a row is read.

/// The copy of a row that is right and is read.
#[derive(Clone, Copy, Debug, PartialEq, Eq)]
pub enum Stand {
    Old,
    Scratch,
    New,
}
