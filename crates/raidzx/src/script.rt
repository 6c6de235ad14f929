// Standard input as a script: read into memory before a call is made on any image, so that what is left of it is told.
ghost use Rattle.std.specs.Prelude.{◌≡◌, ◌≤◌, IfOk, Some, drop, length};

use crate::streams::read_on;
use bank_trait::{Failed, Source};
use std::alloc::{AllocError, Global};
use std::io::Read;

/// Most bytes that are read: one more than a script may have, by which it is told that there are too many.
const MOST_BYTES: usize = 16_777_217;

/// Bytes that one read asks for.
const BLOCK: usize = 8192;

/// The bytes of a script.
#[derive(Drop)]
pub struct ScriptBytes {
    bytes: Vec<u8>,
    /// How many were handed over.
    at: usize,
    /// What stands behind them could not be read.
    is_cut: bool,
    /// How many calls were made.
    made: u64,
    faults: u64,
    ghost within: { at ≤ length bytes.items },
}

impl ScriptBytes {
    /// The script of a command that reads none.
    pub fn none(alloc: Global) -> ScriptBytes {
        ScriptBytes::of(Vec::new(alloc), false)
    }

    fn of(bytes: Vec<u8>, is_cut: bool) -> ScriptBytes {
        ScriptBytes {
            bytes,
            at: 0,
            is_cut,
            made: 0,
            faults: 0,
        }
    }

    /// Reads to the end, or to a read that fails. No more is read once a script has too many bytes: each read but the
    /// last gives one at least.
    pub fn read<R: Read>(alloc: Global, reader: &mut R) -> Result<ScriptBytes, AllocError> {
        let mut bytes = Vec::new(alloc);
        let mut block = [0; BLOCK];
        for _read in 0..MOST_BYTES {
            match read_on(reader, &mut block) {
                Ok(0) => return Ok(ScriptBytes::of(bytes, false)),
                Ok(len) => bytes.extend_from_slice(&block[..len])?,
                Err(_) => return Ok(ScriptBytes::of(bytes, true)),
            }
            if bytes.len() >= MOST_BYTES {
                return Ok(ScriptBytes::of(bytes, false));
            }
        }
        Ok(ScriptBytes::of(bytes, false))
    }
}

impl Source for ScriptBytes {
    ghost left = { λ s. Some (drop s.at s.bytes.items) };

    ghost faults = { λ s. s.faults };

    ghost reads = { λ s. s.made };

    fn read(&mut self, into: &mut [u8]) -> Result<usize, Failed> {
        self.made = self.made.saturating_add(1);
        let count = into.len().min(self.bytes.len() - self.at);
        if count == 0 && self.is_cut {
            self.faults = self.faults.saturating_add(1);
            return Err(Failed);
        }
        into[..count].copy_from_slice(&self.bytes[self.at..self.at + count]);
        self.at += count;
        Ok(count)
    }
}
