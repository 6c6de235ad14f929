// The group after the last answered one.
ghost use Rattle.std.specs.Prelude.{◌≡◌, ◌+◌, ◌<◌, ◌≤◌, length};
ghost use Rattle.sha2.specs.Sha256.{sha256};
ghost use Rattle.block_record.specs.Page.{index_page};
ghost use Rattle.uberblock_ring.specs.Uberblock.{max_group};
ghost use Rattle.uberblock_ring.specs.Valid.{IsRightUber};
ghost use Rattle.mark_choice.specs.CommitChoice.{births_of_commit, KeepsOrEnds};
ghost use Rattle.core_commit.specs.NextUber.{next_uber};

use block_record::IndexEntry;
use reflow_mark::Reflow;
use uberblock_ring::{DeviceSet, Uber};
use width_map::Births;

/// The births that the next group records: an expansion that it ends adds the new width.
fn births_behind(uber: &Uber, chosen: &Reflow) -> Births
    requires group { uber.now.group < max_group }
    requires right { IsRightUber uber.now }
    requires widths { KeepsOrEnds uber.now.reflow chosen.now }
    ensures { result ≡ births_of_commit uber.now.reflow chosen.now uber.now.births (uber.now.group + 1) }
{
    let mut births = *uber.births();
    if chosen.from != uber.reflow().from {
        births.add(uber.group() + 1);
    }
    births
}

/// The uberblock of the group after this one at a chosen reflow, with this index and the digest of its page, in the
/// other area.
pub fn next_uber(
    uber: &Uber,
    chosen: &Reflow,
    entries: &[IndexEntry],
    digest: &[u8; 32],
    out: DeviceSet,
) -> Uber
    requires digest { digest.now ≡ sha256 (index_page entries.now) }
    requires few { length entries.now ≤ 512 }
    requires group { uber.now.group < max_group }
    requires right { IsRightUber uber.now }
    requires widths { KeepsOrEnds uber.now.reflow chosen.now }
    ensures { result ≡ next_uber uber.now chosen.now (length entries.now)
        (sha256 (index_page entries.now)) out }
{
    let mut next = *uber;
    next.set_group(uber.group() + 1);
    next.set_widths(*chosen, births_behind(uber, chosen));
    next.set_index(1 - uber.area(), entries.len() as u32, digest);
    next.set_out(out);
    next
}
