// A look at a pool, by reads alone.
ghost use Rattle.std.specs.Prelude.{◌≡◌, ◌^◌, ◌<◌, ◌≤◌, ℕ, Err, IfErr, IfOk};
ghost use Rattle.bank_trait.specs.Disk.{Image, Unchanged};
ghost use Rattle.uberblock_ring.specs.Devices.{count_of};
ghost use Rattle.uberblock_ring.specs.Valid.{IsRightUber};
ghost use Rattle.core_open.specs.declared.why.OpenWhy.TheVariants.{Limit};
ghost use Rattle.core_open.specs.Causes.{IsOpenCause};
ghost use Rattle.core_open.specs.Failing.{HaveFailed};
ghost use Rattle.core_open.specs.Holds.{HoldsImage, shape_of};
ghost use Rattle.core_open.specs.Looking.{IsLookForMemory, IsSeenIn};

use crate::OpenWhy;
use crate::finding::find;
use crate::sight::Look;
use bank_trait::Bank;
use std::alloc::Global;

/// Looks at the pool that the devices show: it chooses as an opening does, and tells which devices are out
/// by the rule of openings. It reads only, and asks for no number of a next group.
pub fn look<B: Bank>(alloc: Global, bank: &mut B) -> Result<Look, OpenWhy>
    ensures seen { IfOk result (λ look. (image : Image) → HoldsImage (B.disk bank.old) image
        → IsSeenIn (shape_of (B.disk bank.old)) image look) }
    ensures right { IfOk result (λ look. IsRightUber look.uber) }
    ensures few { IfOk result (λ look. count_of look.out ≤ look.uber.parity) }
    ensures below { IfOk result (λ look. look.out < 2 ^ look.uber.reflow.to) }
    ensures silent { IfOk result (λ look.
        HaveFailed (B.disk bank.old) (B.disk bank.new) look.silent) }
    ensures cause { IfErr result (IsOpenCause (B.disk bank.old) (B.disk bank.new)) }
    ensures no_limit { (group : ℕ) → result ≡ Err (Limit group) → ⊥ }
    ensures looks { IfErr result (IsLookForMemory (B.disk bank.old) (B.disk bank.new)) }
    ensures unchanged { Unchanged (B.disk bank.old) (B.disk bank.new) }
{
    let found = find(alloc, bank)?;
    if found.has_too_many_out() {
        return Err(OpenWhy::TooManyFailed { out: found.out });
    }
    Ok(Look {
        uber: found.uber,
        silent: found.silent,
        out: found.out,
    })
}
