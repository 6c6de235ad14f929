// A column that is read.
ghost use Rattle.std.specs.Prelude.{◌≡◌, ℕ, ◌^◌, ◌<◌, false, ◌≤◌};
ghost use Rattle.bank_trait.specs.Disk.{Unchanged};
ghost use Rattle.row_layout.specs.Layout.{IsColumn};
ghost use Rattle.uberblock_ring.specs.Devices.{has_device};
ghost use Rattle.core_state.specs.Outs.{OnlyFailedGoOut};
ghost use Rattle.core_state.specs.Committing.{point_of};
ghost use Rattle.core_state.specs.PoolBank.{HasPool};
ghost use Rattle.core_client.specs.Pool.{IsInPool};
ghost use Rattle.core_state.specs.SpotReads.{given_by, IsGot, IsPassedOrRead};
ghost use Rattle.core_client.specs.Reading.{spot_of};

use crate::spot_of;
use bank_trait::{Bank, Failed};
use core_state::Spot;
use reflow_mark::Reflow;
use row_layout::Layout;
use uberblock_ring::DeviceSet;

/// Reads a column where its row stands, and tells whether that went: not where its device is out, or goes out at this
/// read. What is left in its place then means nothing.
pub fn read_column<B: Bank>(
    bank: &mut B,
    layout: &Layout,
    reflow: &Reflow,
    row: u32,
    column: u32,
    out: &mut DeviceSet,
    into: &mut [u8; 512],
) -> bool
    requires pool { IsInPool layout.now reflow.now }
    requires bank { HasPool reflow.now out.old (B.disk bank.old) }
    requires there { IsColumn layout.now row column }
    ensures step { IsPassedOrRead (spot_of layout.now reflow.now row column) (given_by result into.new)
        (point_of out.old (B.disk bank.old)) (point_of out.new (B.disk bank.new)) }
    ensures got { IsGot (B.disk bank.old).reads out.old out.new
        (spot_of layout.now reflow.now row column) (given_by result into.new) }
    ensures unchanged { Unchanged (B.disk bank.old) (B.disk bank.new) }
    ensures out { OnlyFailedGoOut (point_of out.old (B.disk bank.old))
        (point_of out.new (B.disk bank.new)) }
    ensures below { (devices : ℕ) → reflow.now.to ≤ devices → out.old < 2 ^ devices → out.new < 2 ^ devices }
{
    read_spot(bank, spot_of(layout, reflow, row, column), out, into)
}

/// Reads a spot, unless its device is out; where that fails, it is out.
pub(crate) fn read_spot<B: Bank>(
    bank: &mut B,
    spot: Spot,
    out: &mut DeviceSet,
    into: &mut [u8; 512],
) -> bool
    requires device { has_device out.old spot.device ≡ false
        → spot.device < (B.disk bank.old).devices }
    requires few { spot.device < 64 }
    requires device_sector { spot.device_sector < (B.disk bank.old).sectors }
    ensures { IsPassedOrRead spot (given_by result into.new) (point_of out.old (B.disk bank.old))
        (point_of out.new (B.disk bank.new)) }
{
    if out.has(spot.device) {
        return false;
    }
    match bank.read(spot.device, spot.device_sector, into) {
        Ok(()) => true,
        Err(Failed) => {
            out.insert(spot.device);
            false
        }
    }
}
