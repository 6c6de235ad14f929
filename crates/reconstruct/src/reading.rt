// A block's bytes from its content columns.

ghost use Rattle.std.specs.Prelude.{◌≡◌, List, ℕ, length, IfOk};
ghost use Rattle.reconstruct.specs.Rows.{AreFull, IsShaped, IsEncoded, HoldsContent, IsContent, sectors_for};

use crate::Rows;
use row_layout::Layout;
use std::alloc::{AllocError, Global};

/// The first `len` bytes of what the content columns hold.
pub fn content(
    alloc: Global,
    layout: &Layout,
    rows: &Rows,
    len: usize,
) -> Result<Vec<u8>, AllocError>
    requires len { sectors_for len ≡ layout.now.sectors }
    requires shape { IsShaped layout.now rows.now }
    ensures len { IfOk result (λ bytes. length bytes.items ≡ len) }
    ensures value { IfOk result (λ bytes. IsContent layout.now rows.now bytes.items) }

    // What the columns were made of comes back.
    ensures back { IfOk result (λ bytes. (wanted : List ℕ) → length wanted ≡ len
        → HoldsContent layout.now wanted rows.now → bytes.items ≡ wanted) }
    ensures encoded { IfOk result (λ bytes. (wanted : List ℕ) → length wanted ≡ len
        → IsEncoded layout.now wanted rows.now → bytes.items ≡ wanted) }
    ensures full { IfOk result (λ _bytes. AreFull rows.now) }
{
    let mut bytes = Vec::with_capacity(alloc, len)?;
    for number in 0..layout.sectors() {
        let holder = layout.holder(number);
        let left = len - bytes.len();
        let column = rows.column(holder.row, holder.column);
        bytes.extend_from_slice(&column[..left.min(512)])?;
    }
    Ok(bytes)
}
