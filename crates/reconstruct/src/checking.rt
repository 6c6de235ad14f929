// A block's bytes where they have the block's digest.

ghost use Rattle.std.specs.Prelude.{◌≡◌, ◌↔◌, ℕ, ◌^◌, ◌<◌, ◌≤◌, List, length, take, IfOk, IfSome, IfNone, IsTrue};
ghost use Rattle.std.specs.Prelude.{EachIndex, slice_index};
ghost use Rattle.sha2.specs.Sha256.{sha256};
ghost use Rattle.row_layout.specs.Layout.{rows_of};
ghost use Rattle.row_layout.specs.Standing.{IsWithinLimits};
ghost use Rattle.reconstruct.specs.Rows.{IsShaped, sectors_for};
ghost use Rattle.reconstruct.specs.Lost.{AreBytes};
ghost use Rattle.reconstruct.specs.Solved.{columns_with, is_masked_lost, IsPassedOver, TellsSectors, TellsBytes};

use crate::{DecodeRefused, Rows, content, decode};
use row_layout::Layout;
use sha2::{Digest, Sha256};
use std::alloc::{AllocError, Global};

/// What the columns tell that aren't lost, if it has the digest. Where no content is lost, it is
/// taken as it is.
pub fn decode_matching(
    alloc: Global,
    layout: &Layout,
    rows: &Rows,
    len: usize,
    lost: &[u64],
    digest: &[u8; 32],
) -> Result<Option<Vec<u8>>, AllocError>
    requires len { sectors_for len ≡ layout.now.sectors }
    requires shape { IsShaped layout.now rows.now }
    requires masks { length lost.now ≡ rows_of layout.now }
    ensures within { IfOk result (λ _found. IsWithinLimits layout.now) }
    ensures some { IfOk result (λ found. IfSome found (λ bytes. TellsBytes layout.now
        (columns_with rows.now lost.now) (is_masked_lost lost.now) len digest.now bytes.items)) }

    // They tell no other bytes of the digest.
    ensures alone { IfOk result (λ found. IfSome found (λ bytes. (other : List ℕ) → TellsBytes layout.now
        (columns_with rows.now lost.now) (is_masked_lost lost.now) len digest.now other
        → other ≡ bytes.items)) }
    ensures none { IfOk result (λ found. IfNone found ((bytes : List ℕ) → TellsBytes layout.now
        (columns_with rows.now lost.now) (is_masked_lost lost.now) len digest.now bytes → ⊥)) }
{
    let Some(mut bytes) = whole_sectors(alloc, layout, rows, lost)? else {
        return Ok(None);
    };
    if !begins_with(&bytes, len, digest) {
        return Ok(None);
    }
    bytes.truncate(len);
    Ok(Some(bytes))
}

/// Whether the first `len` bytes have the digest.
fn begins_with(bytes: &[u8], len: usize, digest: &[u8; 32]) -> bool
    requires { len ≤ length bytes.now }
    ensures value { IsTrue result ↔ (sha256 (take len bytes.now) ≡ digest.now) }
    ensures bytes { AreBytes bytes.now }
{
    Sha256::digest(&bytes[..len]) == *digest
}

/// All sectors of the block; none where a row has too few columns left.
fn whole_sectors(
    alloc: Global,
    layout: &Layout,
    rows: &Rows,
    lost: &[u64],
) -> Result<Option<Vec<u8>>, AllocError>
    requires shape { IsShaped layout.now rows.now }
    requires masks { length lost.now ≡ rows_of layout.now }
    ensures within { IfOk result (λ _found. IsWithinLimits layout.now) }
    ensures some { IfOk result (λ found. IfSome found (λ whole. TellsSectors layout.now
        (columns_with rows.now lost.now) (is_masked_lost lost.now) whole.items)) }
    ensures none { IfOk result (λ found. IfNone found (IsPassedOver layout.now (is_masked_lost lost.now))) }
{
    let len = 512 * layout.sectors() as usize;
    if has_all_content(lost, layout.parity()) {
        return Ok(Some(content(alloc, layout, rows, len)?));
    }
    match decode(alloc, layout, rows, len, lost) {
        Ok(whole) => Ok(Some(whole)),
        Err(DecodeRefused::TooFew { .. }) => Ok(None),
        Err(DecodeRefused::NoMemory) => Err(AllocError),
    }
}

/// Whether no column behind the parity columns is lost.
fn has_all_content(lost: &[u64], parity: u32) -> bool
    requires { parity ≤ 3 }
    ensures { IsTrue result ↔ EachIndex lost.now (λ row. slice_index lost.now row < 2 ^ parity) }
{
    lost.iter().all(|mask| *mask < 1 << parity)
}
