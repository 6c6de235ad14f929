// Choices of suspects, tried one after the other.

ghost use Rattle.std.specs.Prelude.{◌≡◌, ◌≤◌, ℕ, List, length, IfOk, IfSome, IfNone, IsErrOf};
ghost use Rattle.row_layout.specs.Layout.{rows_of};
ghost use Rattle.reconstruct.specs.Rows.{IsShaped, sectors_for};
ghost use Rattle.reconstruct.specs.Suspects.{AreInside, choice_reach};
ghost use Rattle.reconstruct.specs.Solved.{columns_with, is_masked_lost, question_with, IsDecoded, IsDamaged};
ghost use Rattle.reconstruct.specs.Solved.{TellsBytes};
ghost use Rattle.reconstruct.specs.Tried.{IsFirstTold, NoneTold};
ghost use Rattle.reconstruct.specs.declared.refusal.CheckRefused.TheVariants.{Damaged};

use crate::checking::decode_matching;
use crate::masking::with_suspect;
use crate::{CheckRefused, Pair, Rows};
use row_layout::Layout;
use std::alloc::{AllocError, Global};

/// A choice of two suspects takes them from so many, the first ones of the list.
pub const PAIRS_FOR_TWO: usize = 136;

/// A choice of three takes them from so many.
pub const PAIRS_FOR_THREE: usize = 31;

/// What is asked of a block: bytes of this length and digest, from its columns. Of the suspects the
/// first `reach` ones may be chosen.
#[derive(Drop)]
struct Search<'a> {
    layout: &'a Layout,
    rows: &'a Rows,
    len: usize,
    digest: &'a [u8; 32],
    suspects: &'a [Pair],
    reach: usize,
}

/// How many of so many suspects, the first ones, a choice of this size is taken from.
fn reach(count: usize, size: u32) -> usize
    ensures value { result ≡ choice_reach count size }
    ensures inside { result ≤ count }
{
    match size {
        2 => count.min(PAIRS_FOR_TWO),
        3 => count.min(PAIRS_FOR_THREE),
        _ => count,
    }
}

/// The first of the choices of so many `more` suspects, at `from` or behind, that tells bytes with
/// the digest: columns are left out that are lost, and those that are suspected.
fn try_choices(
    alloc: Global,
    search: &Search,
    lost: &[u64],
    from: usize,
    more: u32,
) -> Result<Option<Vec<u8>>, AllocError>
    requires len { sectors_for search.now.len ≡ search.now.layout.now.sectors }
    requires shape { IsShaped search.now.layout.now search.now.rows.now }
    requires masks { length lost.now ≡ rows_of search.now.layout.now }
    requires pairs { AreInside search.now.suspects.now }
    requires reach { search.now.reach ≤ length search.now.suspects.now }
    ensures some { IfOk result (λ found. IfSome found (λ bytes. IsFirstTold
        (question_with search.now.layout.now search.now.rows.now lost.now search.now.len
        search.now.digest.now search.now.suspects.now) search.now.reach from more bytes.items)) }
    ensures none { IfOk result (λ found. IfNone found (NoneTold
        (question_with search.now.layout.now search.now.rows.now lost.now search.now.len
        search.now.digest.now search.now.suspects.now) search.now.reach from more)) }
{
    if more == 0 {
        return decode_matching(
            alloc,
            search.layout,
            search.rows,
            search.len,
            lost,
            search.digest,
        );
    }
    for place in from..search.reach {
        let fewer = with_suspect(alloc, search.layout, lost, &search.suspects[place])?;
        if let Some(bytes) = try_choices(alloc, search, &fewer, place + 1, more - 1)? {
            return Ok(Some(bytes));
        }
    }
    Ok(None)
}

/// The block's bytes by the first choice of at most as many suspects as there is parity that gives
/// bytes with the digest. Fewer suspects come first, and none at all before any.
pub fn decode_checked(
    alloc: Global,
    layout: &Layout,
    rows: &Rows,
    len: usize,
    lost: &[u64],
    digest: &[u8; 32],
    suspects: &[Pair],
) -> Result<Vec<u8>, CheckRefused>
    requires len { sectors_for len ≡ layout.now.sectors }
    requires shape { IsShaped layout.now rows.now }
    requires masks { length lost.now ≡ rows_of layout.now }
    requires pairs { AreInside suspects.now }
    ensures ok { IfOk result (λ bytes. IsDecoded
        (question_with layout.now rows.now lost.now len digest.now suspects.now) bytes.items) }

    // No choice gives such bytes.
    ensures cause_damaged { IsErrOf result Damaged → IsDamaged
        (question_with layout.now rows.now lost.now len digest.now suspects.now) }
{
    if let Some(bytes) = decode_matching(alloc, layout, rows, len, lost, digest)? {
        return Ok(bytes);
    }
    decode_suspecting(alloc, layout, rows, len, lost, digest, suspects)
}

/// What `decode_checked` gives where no bytes have the digest without a suspect: that is not tried
/// again.
pub fn decode_suspecting(
    alloc: Global,
    layout: &Layout,
    rows: &Rows,
    len: usize,
    lost: &[u64],
    digest: &[u8; 32],
    suspects: &[Pair],
) -> Result<Vec<u8>, CheckRefused>
    requires len { sectors_for len ≡ layout.now.sectors }
    requires shape { IsShaped layout.now rows.now }
    requires masks { length lost.now ≡ rows_of layout.now }
    requires pairs { AreInside suspects.now }
    requires untold { (bytes : List ℕ) → TellsBytes layout.now (columns_with rows.now lost.now)
        (is_masked_lost lost.now) len digest.now bytes → ⊥ }
    ensures ok { IfOk result (λ bytes. IsDecoded
        (question_with layout.now rows.now lost.now len digest.now suspects.now) bytes.items) }
    ensures cause_damaged { IsErrOf result Damaged → IsDamaged
        (question_with layout.now rows.now lost.now len digest.now suspects.now) }
{
    for size in 1..layout.parity() + 1 {
        let search = Search {
            layout,
            rows,
            len,
            digest,
            suspects,
            reach: reach(suspects.len(), size),
        };
        if let Some(bytes) = try_choices(alloc, &search, lost, 0, size)? {
            return Ok(bytes);
        }
    }
    Err(CheckRefused::Damaged)
}
