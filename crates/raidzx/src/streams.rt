// Standard output as a sink, reads of standard input, and what stands in for one that is closed.
ghost use Rattle.std.specs.Prelude.{◌≡◌, ◌<◌, ◌≤◌, ℕ, List, Option, IfOk, length};
ghost use Rattle.std.specs.Io.{WritesAtMost};
ghost use Rattle.std.specs.Io.KnownBytes.{WriteAppends};

use bank_trait::{Failed, Sink};
use std::fs::{File, Files, OpenOptions};
use std::io::{self, Error, ErrorKind, Read, Write};

/// How often a call is made that signals interrupt.
const MOST_TRIES: u64 = u64::MAX;

/// Files on the numbers of standard streams that the program was started without.
#[derive(Drop)]
pub struct HeldStreams {
    first: Option<File>,
    second: Option<File>,
    third: Option<File>,
}

/// Opens a folder three times. A program that is started with a standard stream closed gets that
/// stream's number for the file that it opens first: an image would be read as the script, or written
/// over by the lines of output. A folder can be neither read nor written, so that such a stream fails.
pub fn hold_standard_streams<R: Files<File = File>>(rt: &R) -> HeldStreams {
    HeldStreams {
        first: open_folder(rt),
        second: open_folder(rt),
        third: open_folder(rt),
    }
}

fn open_folder<R: Files<File = File>>(rt: &R) -> Option<File> {
    OpenOptions::new().read(true).open(rt, "/").ok()
}

/// A sink over a writer. A write that a signal interrupts is made again.
#[derive(Drop)]
pub struct Output<W> {
    pub inner: W,
    pub faults: u64,
}

fn write_on<W: Write>(writer: &mut W, piece: &[u8]) -> io::Result<usize>
    ensures bound { WritesAtMost result piece.now }
    ensures bytes { WriteAppends (W.contents writer.old) (W.contents writer.new) result piece.now }
{
    for _ in 0..MOST_TRIES {
        match writer.write(piece) {
            Err(why) if why.kind() == ErrorKind::Interrupted => {}
            outcome => return outcome,
        }
    }
    Err(Error::from(ErrorKind::Interrupted))
}

impl<W: Write + Drop> Sink for Output<W> {
    ghost held = { λ s. W.contents s.inner };

    ghost faults = { λ s. s.faults };

    fn write(&mut self, piece: &[u8]) -> Result<usize, Failed> {
        match write_on(&mut self.inner, piece) {
            Ok(taken) if taken > 0 || piece.is_empty() => Ok(taken),
            _ => {
                self.faults = self.faults.saturating_add(1);
                Err(Failed)
            }
        }
    }
}

/// What a read of standard input comes to. One that a signal interrupts is made again.
pub fn read_on<R: Read>(reader: &mut R, into: &mut [u8]) -> io::Result<usize>
    ensures { IfOk result (λ count. count ≤ length into.new) }
{
    for _ in 0..MOST_TRIES {
        match reader.read(into) {
            Err(why) if why.kind() == ErrorKind::Interrupted => {}
            outcome => return outcome,
        }
    }
    Err(Error::from(ErrorKind::Interrupted))
}
