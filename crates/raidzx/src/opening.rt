// How images are opened, and why one can't be used.
ghost use Rattle.std.specs.Prelude.{◌≡◌, ◌↔◌, IfErr, IsTrue};
ghost use Rattle.command_words.specs.declared.command.ServedCommand.TheVariants as served;
ghost use Rattle.raidzx.specs.declared.opening.Access.TheVariants.{Look};
ghost use Rattle.raidzx.specs.declared.opening.Unopened.TheVariants as unopened;
ghost use Rattle.raidzx.specs.Opening.{IsJust, IsOfProgram};

use crate::files::Image;
use command_words::ServedCommand;
use std::fs::{self, File, Files, OpenOptions, TryLockError};
use std::io::{Error, ErrorKind, Seek, SeekFrom};
use std::os::unix::fs::FileTypeExt;

/// The system's numbers for no descriptor left in all of it, and in this program.
const NONE_LEFT_IN_SYSTEM: i32 = 23;

const NONE_LEFT_IN_PROGRAM: i32 = 24;

/// The system's number for a folder where a file is wanted.
const IS_A_FOLDER: i32 = 21;

/// The system's number for a pipe where a file is wanted, in which places can be sought.
const IS_A_PIPE: i32 = 29;

/// Why an image can't be used.
#[derive(Drop)]
pub enum Unopened {
    /// Another program has it, or this one has it under another name.
    Held,
    /// This program lacks something, which tells nothing of the disk.
    Refused(Error),
    /// The disk fails, or there is no such file.
    Failed(Error),
}

/// Whether an error tells of this program or its system, and not of a disk: it has no permission, no memory or no
/// descriptor left, the file system may be read alone, or the system has the disk for itself. (A file system becomes
/// one that may be read alone when its disk fails, and it may be whole all the same.)
fn is_of_program(error: &Error) -> bool
    ensures { IsTrue result ↔ IsOfProgram error.now }
{
    match error.kind() {
        ErrorKind::PermissionDenied | ErrorKind::OutOfMemory => true,
        ErrorKind::ReadOnlyFilesystem | ErrorKind::ResourceBusy => true,
        _ => match error.raw_os_error() {
            Some(code) => code == NONE_LEFT_IN_SYSTEM || code == NONE_LEFT_IN_PROGRAM,
            None => false,
        },
    }
}

fn why(error: Error) -> Unopened
    ensures of_program { IsOfProgram error → result ≡ unopened.Refused error }
    ensures of_disk { (IsOfProgram error → ⊥) → result ≡ unopened.Failed error }
    ensures just { IsJust result }
{
    if is_of_program(&error) {
        Unopened::Refused(error)
    } else {
        Unopened::Failed(error)
    }
}

/// What images are opened for.
#[derive(Clone, Copy, Debug, PartialEq, Eq)]
pub enum Access {
    /// To be read and written, by this program alone.
    Change,
    /// To be read, also where another program has them.
    Look,
}

/// What a command opens its images for: a `status` looks at them alone.
pub fn access_for(command: ServedCommand) -> Access
    ensures { result ≡ Look ↔ command ≡ served.Status }
{
    match command {
        ServedCommand::Status => Access::Look,
        _ => Access::Change,
    }
}

/// Opens a file for what is to be done with it.
pub fn open_image<R: Files<File = File>>(
    rt: &R,
    name: &str,
    access: Access,
) -> Result<Image, Unopened>
    ensures { IfErr result IsJust }
{
    match access {
        Access::Change => open_alone(rt, name),
        Access::Look => open_to_read(rt, name),
    }
}

/// Opens a file for reading alone, without a lock: nothing is written to it, and whoever has it goes on. A folder and a
/// pipe can be opened so, and are none; the opening of a pipe may wait for ever.
fn open_to_read<R: Files<File = File>>(rt: &R, name: &str) -> Result<Image, Unopened>
    ensures { IfErr result IsJust }
{
    match fs::metadata(rt, name) {
        Ok(found) if found.is_dir() => Err(why(Error::from_raw_os_error(IS_A_FOLDER))),
        Ok(found) if found.file_type().is_fifo() => Err(why(Error::from_raw_os_error(IS_A_PIPE))),
        Ok(_) => match OpenOptions::new().read(true).open(rt, name) {
            Ok(file) => measured(file),
            Err(error) => Err(why(error)),
        },
        Err(error) => Err(why(error)),
    }
}

/// Opens a file for reading and writing, and locks it. Where another program has it, or this one is refused it, nothing
/// may be done to any image of its pool: another program may be at work on it, or the disk may be a whole one.
fn open_alone<R: Files<File = File>>(rt: &R, name: &str) -> Result<Image, Unopened>
    ensures { IfErr result IsJust }
{
    let file = match OpenOptions::new().read(true).write(true).open(rt, name) {
        Ok(file) => file,
        Err(error) => return Err(why(error)),
    };
    match file.try_lock() {
        Ok(()) => measured(file),
        Err(TryLockError::WouldBlock) => Err(Unopened::Held),
        Err(TryLockError::Error(error)) => Err(Unopened::Refused(error)),
    }
}

/// The image with its length: its end is looked for, since a disk has no length among its metadata.
fn measured(mut file: File) -> Result<Image, Unopened>
    ensures { IfErr result IsJust }
{
    match file.seek(SeekFrom::End(0)) {
        Ok(length) => Ok(Image::new(file, length)),
        Err(error) => Err(why(error)),
    }
}
