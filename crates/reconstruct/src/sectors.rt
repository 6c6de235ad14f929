// Sectors of a block's bytes, and sectors of zeros.

ghost use Rattle.std.specs.Prelude.{◌≡◌, ◌≤◌, ◌++◌, IfOk, drop, length, replicate};
ghost use Rattle.reconstruct.specs.Columns.{zero_sector, content_sector};

use std::alloc::{AllocError, Global};

/// A sector of zeros.
#[tactic(auto, unfolding(crate::specs::Columns::zero_sector))]
pub fn zero_sector() -> [u8; 512]
    ensures { result ≡ zero_sector }
{
    [0; 512]
}

/// So many columns of zeros.
pub fn zero_columns(alloc: Global, count: usize) -> Result<Vec<[u8; 512]>, AllocError>
    ensures { IfOk result (λ columns. columns.items ≡ replicate count zero_sector) }
{
    let mut columns = Vec::with_capacity(alloc, count)?;
    for _column in 0..count {
        columns.push_reserved(zero_sector());
    }
    Ok(columns)
}

/// Puts the sector of this number, filled up with zeros where the bytes end in it.
pub fn put_sector(bytes: &[u8], number: u32, out: &mut [u8; 512])
    ensures { out.new ≡ content_sector bytes.now number }
{
    let start = (512 * number as usize).min(bytes.len());
    let end = (start + 512).min(bytes.len());
    let front = &bytes[start..end];
    if front.len() < 512 {
        *out = zero_sector();
    }
    copy_to_front(out, front);
}

fn copy_to_front(out: &mut [u8; 512], front: &[u8])
    requires { length front.now ≤ 512 }
    ensures { out.new ≡ front.now ++ drop (length front.now) out.old }
{
    out[..front.len()].copy_from_slice(front);
}
