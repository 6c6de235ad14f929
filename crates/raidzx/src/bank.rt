// The bank that images are.
ghost use Rattle.std.specs.Prelude.{◌≡◌, ◌<◌, ◌^◌, ℕ, length, slice_index, IfOk};
ghost use Rattle.file_bank.specs.FileBank.{disk_of};
ghost use Rattle.file_bank.specs.Files.{HasLongestSectors};
ghost use Rattle.raidzx.specs.Images.{device_contents};

use crate::files::{Image, ImageFile, SyncRuntime};
use crate::pace::Pace;
use file_bank::{Gathered, ReadAhead};
use raidzx_top::MOST_SECTORS;
use std::alloc::{AllocError, Global};
use std::sync::Arc;

/// An image whose writes are gathered and whose reads are made ahead.
pub type DeviceFile<R> = Gathered<ReadAhead<ImageFile<R>>>;

pub type FileBank<R> = file_bank::FileBank<DeviceFile<R>>;

/// The file of a device, whose bank syncs at this pace. All the memory that its calls take is taken here, but for that
/// of threads.
pub fn device_file<R: SyncRuntime>(
    rt: R,
    alloc: Global,
    image: Image,
    pace: &Arc<Pace>,
) -> Result<DeviceFile<R>, AllocError> {
    let pace = Arc::try_clone(pace)?;
    let file = ImageFile::new(rt, alloc, image, pace)?;
    Gathered::new(alloc, ReadAhead::new(alloc, file)?)
}

/// The bank whose devices are these files, each opened once.
pub fn bank_over<R: SyncRuntime>(files: Vec<Option<DeviceFile<R>>>, faults: Vec<u64>) -> FileBank<R>
    requires counted { length faults.items ≡ length files.items }
    requires few { length files.items < 2 ^ 32 }
    ensures devices { (disk_of device_contents result).devices ≡ length files.items }
    ensures sectors { HasLongestSectors device_contents files.items 65_728
        (disk_of device_contents result).sectors }
    ensures faults { (device : ℕ) → (disk_of device_contents result).faults device ≡ slice_index faults.items device }
{
    FileBank::new(files, faults, MOST_SECTORS)
}
