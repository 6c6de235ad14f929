// A column that is written.
ghost use Rattle.core_state.specs.Committing.{point_of};
ghost use Rattle.core_client.specs.Writing.{IsOnBank, IsPassedOrMade};

use bank_trait::Bank;
use reconstruct::Rows;
use shadow_write::Write;
use uberblock_ring::DeviceSet;

/// Makes one write of a plan. A device that is out is passed over; one whose write fails is out.
pub fn write_column<B: Bank>(bank: &mut B, rows: &Rows, write: &Write, out: &mut DeviceSet)
    requires inside { IsOnBank rows.now out.old (B.disk bank.old) write.now }
    ensures { IsPassedOrMade rows.now write.now (point_of out.old (B.disk bank.old))
        (point_of out.new (B.disk bank.new)) }
{
    if out.has(write.device) {
        return;
    }
    let column = rows.column(write.row, write.column);
    if bank
        .write(write.device, write.device_sector, column)
        .is_err()
    {
        out.insert(write.device);
    }
}
