// A call as a script asks for it.
ghost use Rattle.std.specs.Prelude.{◌≡◌, ◌+◌, ◌*◌, ◌%◌, ◌<◌, ℕ, length, slice_index_or, IfOk};
ghost use Rattle.client_script.specs.Lines.{fill_bytes, pattern_from};

use core_state::{Bytes, Kind};
use std::alloc::{AllocError, Global};

/// Most bytes of a put.
pub const MOST_BYTES: u64 = 65_536;

/// The bytes of a put: a pattern of so many bytes, or the bytes themselves.
#[derive(Drop)]
pub enum Fill {
    Nothing,
    Pattern { len: u32, seed: u64 },
    Hex(Bytes),
}

impl Fill {
    /// The bytes that a put is handed.
    pub fn to_bytes(&self, alloc: Global) -> Result<Vec<u8>, AllocError>
        ensures { IfOk result (λ bytes. bytes.items ≡ fill_bytes self.now) }
    {
        match self {
            Fill::Nothing => Ok(Vec::new(alloc)),
            Fill::Pattern { len, seed } => pattern(alloc, *len, *seed),
            Fill::Hex(bytes) => Vec::from_slice(alloc, bytes.as_slice()),
        }
    }
}

fn pattern(alloc: Global, len: u32, seed: u64) -> Result<Vec<u8>, AllocError>
    ensures { IfOk result (λ bytes. bytes.items ≡ pattern_from seed 0 len) }
{
    let len = len as usize;
    let mut bytes = Vec::with_capacity(alloc, len)?;
    for run in 0..len.div_ceil(256) {
        let row = pattern_row(first_of_run(seed, run));
        let count = (len - 256 * run).min(256);
        bytes.extend_from_slice(&row[..count])?;
    }
    Ok(bytes)
}

// Byte `i` is `seed + 7 * i + i / 256`, and a byte takes no more of it than its last eight bits: so
// in a run of 256 bytes each is the one before and 7.
fn first_of_run(seed: u64, run: usize) -> u8
    ensures { result ≡ (seed + run) % 256 }
{
    ((seed % 256) as u8).wrapping_add((run % 256) as u8)
}

fn pattern_row(first: u8) -> [u8; 256]
    ensures len { length result ≡ 256 }
    ensures each { (place : ℕ) → place < 256
        → slice_index_or result place 0 ≡ (first + 7 * place) % 256 }
{
    let mut row = [0; 256];
    for place in 0..256 {
        row[place] = first.wrapping_add((place as u8).wrapping_mul(7));
    }
    row
}

/// `line` is the number of its line, from 1.
#[derive(Drop)]
pub struct ScriptCall {
    pub line: u64,
    pub kind: Kind,
    pub id: Option<u64>,
    pub fill: Fill,
}
