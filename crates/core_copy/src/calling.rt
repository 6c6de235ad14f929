// One device call of a job.
ghost use Rattle.std.specs.Prelude.{◌≢◌, IsTrue};
ghost use Rattle.reflow_copier.specs.declared.job.CallKind.TheVariants as kind;
ghost use Rattle.core_state.specs.Committing.{point_of};
ghost use Rattle.core_state.specs.SpotReads.{given_by, IsRead};
ghost use Rattle.core_copy.specs.JobRun.{IsCallable, IsSpotWritten, MakesCall, spot_called};

use bank_trait::Bank;
use core_state::Spot;
use reflow_copier::{CallKind, JobCall};
use uberblock_ring::DeviceSet;

/// Reads a spot, and tells whether that went. Where it fails, its device is out from then on, and what is left in its
/// place means nothing.
fn read_spot<B: Bank>(bank: &mut B, spot: Spot, into: &mut [u8; 512], out: &mut DeviceSet) -> bool
    requires callable { IsCallable spot out.old (B.disk bank.old) }
    ensures { IsRead spot (given_by result into.new) (point_of out.old (B.disk bank.old))
        (point_of out.new (B.disk bank.new)) }
{
    if bank.read(spot.device, spot.device_sector, into).is_err() {
        out.insert(spot.device);
        return false;
    }
    true
}

/// Writes a spot. A device whose write fails is out from then on.
fn write_spot<B: Bank>(bank: &mut B, spot: Spot, bytes: &[u8; 512], out: &mut DeviceSet)
    requires callable { IsCallable spot out.old (B.disk bank.old) }
    ensures { IsSpotWritten spot bytes.now (point_of out.old (B.disk bank.old))
        (point_of out.new (B.disk bank.new)) }
{
    if bank.write(spot.device, spot.device_sector, bytes).is_err() {
        out.insert(spot.device);
    }
}

/// Makes a call: it reads into `bytes`, or it writes what was read there before. Tells whether what was read stands
/// there behind it: it does behind a read that came off, and not behind a write, which is done with it.
pub(crate) fn make<B: Bank>(
    bank: &mut B,
    call: JobCall,
    has_read: bool,
    bytes: &mut [u8; 512],
    out: &mut DeviceSet,
) -> bool
    requires callable { IsCallable (spot_called call) out.old (B.disk bank.old) }
    requires read { call.kind ≢ kind.Read → IsTrue has_read }
    ensures { MakesCall call (given_by has_read bytes.old) (given_by result bytes.new)
        (point_of out.old (B.disk bank.old)) (point_of out.new (B.disk bank.new)) }
{
    let spot = Spot {
        device: call.device,
        device_sector: call.device_sector,
    };
    if call.kind == CallKind::Read {
        return read_spot(bank, spot, bytes, out);
    }
    if has_read {
        write_spot(bank, spot, bytes, out);
    }
    false
}
