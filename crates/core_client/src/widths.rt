// The widths at which a block's sectors may have stood.

use width_map::Births;

/// The widths of a pool as they are where a read begins: those that it has had, and the present one. While the pool is
/// being widened to that, rows that end above the mark are read one device narrower.
#[derive(Clone, Copy, Debug, PartialEq, Eq)]
pub struct Widths {
    pub births: Births,
    pub to: u32,
    pub mark: u64,
}
