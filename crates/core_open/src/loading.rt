// Opening a pool.
ghost use Rattle.std.specs.Prelude.{◌≡◌, ◌⊎◌, ◌≤◌, [], IfErr, IfOk};
ghost use Rattle.bank_trait.specs.Disk.{Image, Later, Unchanged};
ghost use Rattle.bank_trait.specs.Regions.{TouchesOnly};
ghost use Rattle.uberblock_ring.specs.Devices.{count_of};
ghost use Rattle.uberblock_ring.specs.Valid.{IsRightUber};
ghost use Rattle.core_blocks.specs.Blocks.{AreUnderWay};
ghost use Rattle.core_open.specs.Candidates.{IsIndexFor};
ghost use Rattle.core_open.specs.Causes.{AreOutOf, IsOpenCause};
ghost use Rattle.core_open.specs.Failing.{HaveFailed};
ghost use Rattle.core_open.specs.Holds.{HoldsImage, shape_of};
ghost use Rattle.core_open.specs.Opens.{IsForMemory, IsWithinBelow, LeavesOthers, RenewsChoice, WritesInOrder};
ghost use Rattle.core_open.specs.Regions.{IsOnBelow};
ghost use Rattle.shadow_write.specs.Required.{front_after_stop};
ghost use Rattle.core_open.specs.Opening.{AreLoaded, CutsOpening, IsBegunWith, LeavesUnopened};
ghost use Rattle.core_open.specs.Pool.{HasBank};

use crate::{OpenWhy, Pool, open};
use bank_trait::Bank;
use block_record::IndexEntry;
use core_blocks::Blocks;
use shadow_write::front_after_stop;
use std::alloc::{AllocError, Global};
use uberblock_ring::{DeviceSet, Uber};

/// A pool that was opened, and the devices that failed while it was looked for.
#[derive(Drop)]
pub struct OpenedPool {
    pub pool: Pool,
    pub silent: DeviceSet,
}

/// The blocks of an index that fits its uberblock. No put is under way.
fn load(alloc: Global, uber: &Uber, entries: &[IndexEntry]) -> Result<Blocks, AllocError>
    requires right { IsRightUber uber.now }
    requires index { IsIndexFor uber.now entries.now }
    ensures loaded { IfOk result (AreLoaded uber.now entries.now) }
    ensures rest { IfOk result (λ blocks. AreUnderWay blocks []) }
{
    Blocks::load(
        alloc,
        uber.parity(),
        *uber.births(),
        uber.reflow().sectors(),
        entries,
    )
}

/// Opens the pool that the devices show. A group that renews the one that is opened is written, two
/// above it: it is the last one of the pool that is handed back. Where memory is exhausted for its
/// blocks, that group has been written already.
pub fn open_pool<B: Bank>(alloc: Global, bank: &mut B) -> Result<OpenedPool, OpenWhy>
    ensures bank { IfOk result (λ opened.
        HasBank opened.pool.uber opened.pool.out (B.disk bank.new)) }
    ensures later { IfOk result (λ opened. Later (B.disk bank.old) (B.disk bank.new)) }
    ensures rest { IfOk result (λ opened. AreUnderWay opened.pool.blocks []) }
    ensures right { IfOk result (λ opened. IsRightUber opened.pool.uber) }
    ensures front { IfOk result (λ opened.
        opened.pool.done ≡ front_after_stop opened.pool.uber.reflow) }
    ensures loaded { IfOk result (λ opened. AreLoaded opened.pool.uber
        opened.pool.blocks.table.entries opened.pool.blocks) }
    ensures few { IfOk result (λ opened. count_of opened.pool.out ≤ opened.pool.uber.parity) }
    ensures silent { IfOk result (λ opened.
        HaveFailed (B.disk bank.old) (B.disk bank.new) opened.silent) }
    ensures missed { IfOk result (λ opened.
        IsWithinBelow opened.pool.uber.reflow.to opened.silent opened.pool.uber.out) }
    ensures renews { IfOk result (λ opened. (image : Image) → HoldsImage (B.disk bank.old) image
        → RenewsChoice (shape_of (B.disk bank.old)) opened.silent image
        opened.pool.uber opened.pool.blocks.table.entries) }
    ensures out { IfOk result (λ opened. AreOutOf (B.disk bank.old) (B.disk bank.new)
        opened.silent opened.pool.uber opened.pool.out) }
    ensures begins { IfOk result (λ opened. IsBegunWith opened.pool opened.silent
        (B.disk bank.old) (B.disk bank.new)) }
    ensures cause { IfErr result (IsOpenCause (B.disk bank.old) (B.disk bank.new)) }
    ensures cut { IfErr result (λ why. Unchanged (B.disk bank.old) (B.disk bank.new)
        ⊎ CutsOpening (B.disk bank.old) (B.disk bank.new)) }
    ensures untouched { IfErr result (λ why.
        LeavesUnopened why (B.disk bank.old) (B.disk bank.new)) }
    ensures opens { IfErr result (IsForMemory (B.disk bank.old) (B.disk bank.new)) }

    // The chosen group is written to devices that lack it, and nothing else until the uberblock that renews it.
    ensures writes { IfOk result (λ opened. WritesInOrder (B.disk bank.old) (B.disk bank.new)
        opened.silent opened.pool.uber) }

    // No device is touched but those of the pool.
    ensures only { IfOk result (λ opened. TouchesOnly (IsOnBelow opened.pool.uber.reflow.to)
        (B.disk bank.old) (B.disk bank.new)) }
    ensures others { LeavesOthers (B.disk bank.old) (B.disk bank.new) }
{
    let opened = open(alloc, bank)?;
    let blocks = load(alloc, &opened.uber, &opened.entries)?;
    let done = front_after_stop(&opened.uber.reflow());
    Ok(OpenedPool {
        pool: Pool {
            uber: opened.uber,
            blocks,
            out: opened.out,
            done,
        },
        silent: opened.silent,
    })
}
