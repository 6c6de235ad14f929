// The bytes of a block.
ghost use Rattle.std.specs.Prelude.{◌≡◌, ◌↔◌, ℕ, ◌<◌, Err, IfOk, IsTrue};
ghost use Rattle.row_layout.specs.Layout.{rows_of};
ghost use Rattle.reconstruct.specs.Rows.{sectors_for};
ghost use Rattle.reconstruct.specs.Lost.{HasTooFew};
ghost use Rattle.reconstruct.specs.Solved.{IsDecoded, IsDamaged};
ghost use Rattle.core_client.specs.Asked.{question_of};
ghost use Rattle.core_client.specs.Got.{HasLostFew, IsShapedAs};

use crate::{ColumnsRead, FetchRefused, Widths};
use reconstruct::{CheckRefused, decode_matching, decode_suspecting, first_too_few, suspects};
use row_layout::Layout;
use std::alloc::Global;

/// The bytes of a block whose columns were read: of this length and digest, by the first choice of suspects that gives
/// any. The widths are those of the turn in which the read began.
pub fn checked_bytes(
    alloc: Global,
    layout: &Layout,
    read: &ColumnsRead,
    len: usize,
    digest: &[u8; 32],
    widths: &Widths,
) -> Result<Vec<u8>, FetchRefused>
    requires len { sectors_for len ≡ layout.now.sectors }
    requires shape { IsShapedAs layout.now read.now }
    ensures decoded { IfOk result (λ bytes. IsDecoded
        (question_of layout.now read.now len digest.now widths.now) bytes.items) }

    // Where a row has lost more columns than there is parity, no memory is asked for.
    ensures too_few { (row : ℕ) → row < rows_of layout.now → HasTooFew layout.now read.now.lost.items row
        → result ≡ Err FetchRefused.Damaged }

    // No choice gives such bytes.
    ensures cause_damaged { result ≡ Err FetchRefused.Damaged
        → IsDamaged (question_of layout.now read.now len digest.now widths.now) }
{
    if !has_lost_few(layout, read) {
        return Err(FetchRefused::Damaged);
    }
    // Without a suspect nothing more is allocated, and one digest is made.
    if let Some(bytes) = decode_matching(alloc, layout, &read.rows, len, &read.lost, digest)? {
        return Ok(bytes);
    }
    let pairs = suspects(alloc, &widths.births, widths.to, widths.mark)?;
    match decode_suspecting(alloc, layout, &read.rows, len, &read.lost, digest, &pairs) {
        Ok(bytes) => Ok(bytes),
        Err(CheckRefused::Damaged) => Err(FetchRefused::Damaged),
        Err(CheckRefused::NoMemory) => Err(FetchRefused::NoMemory),
    }
}

/// Whether no row has lost more columns than it has parity.
fn has_lost_few(layout: &Layout, read: &ColumnsRead) -> bool
    requires { IsShapedAs layout.now read.now }
    ensures { IsTrue result ↔ HasLostFew layout.now read.now }
{
    first_too_few(layout, &read.lost).is_none()
}
