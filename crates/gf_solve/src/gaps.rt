// Which columns are lost, and which are there.

/// The lost ones of some columns.
#[derive(Clone, Copy, Debug, PartialEq, Eq)]
pub enum Gaps {
    Whole,
    One(usize),
    Two(usize, usize),
    Three(usize, usize, usize),
}
