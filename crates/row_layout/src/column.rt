// What stands at a row and column of a block.

/// A parity column of this number, a content sector of this number, or nothing.
#[derive(Clone, Copy, Debug, PartialEq, Eq)]
pub enum Part {
    Parity(u32),
    Content(u32),
    Missing,
}

/// A sector of the pool and what it holds.
#[derive(Clone, Copy, Debug, PartialEq, Eq)]
pub struct Column {
    pub sector: u64,
    pub part: Part,
}

/// A row of a block and a column of that row.
#[derive(Clone, Copy, Debug, PartialEq, Eq)]
pub struct Holder {
    pub row: u32,
    pub column: u32,
}
