// A place of a block that is looked at.
ghost use Rattle.core_state.specs.Committing.{point_of};
ghost use Rattle.core_client.specs.Writing.{ChecksPlace, IsOnBank};

use crate::reading::read_spot;
use bank_trait::Bank;
use core_state::Spot;
use reconstruct::Rows;
use shadow_write::Write;
use uberblock_ring::DeviceSet;

/// Reads the place of a write, and tells whether it reads otherwise than the column that the write takes there. A
/// device that is out is passed over; one whose read fails is out.
pub(crate) fn reads_otherwise<B: Bank>(
    bank: &mut B,
    rows: &Rows,
    write: &Write,
    out: &mut DeviceSet,
) -> bool
    requires inside { IsOnBank rows.now out.old (B.disk bank.old) write.now }
    ensures { ChecksPlace rows.now write.now result (point_of out.old (B.disk bank.old))
        (point_of out.new (B.disk bank.new)) }
{
    let spot = Spot {
        device: write.device,
        device_sector: write.device_sector,
    };
    let mut found = [0; 512];
    read_spot(bank, spot, out, &mut found) && found != *rows.column(write.row, write.column)
}
