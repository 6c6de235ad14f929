// A script from a source.
ghost use Rattle.std.specs.Prelude.{◌≡◌, ℕ, ◌+◌, ◌<◌, ◌≤◌, List, Some, All, Ok, Err, IfOk, IfErr};
ghost use Rattle.client_script.specs.declared.refused.ReadRefused.TheVariants.{Limit};
ghost use Rattle.client_script.specs.Script.{Script as Asked, IsAllowed, IsScript, IsFaultAt, IsOverLimit, reached_by};
ghost use Rattle.client_script.specs.FromSource.{IsToldWell, IsUnreadFor, IsNotReadFor, IsReadUnlessNoMemory};
ghost use Rattle.client_script.specs.FromSource.{IsReadFaultUnlessNoMemory, most_reads};

use crate::reading::{MOST_SCRIPT_BYTES, parse};
use crate::refused::ReadRefused;
use crate::script::Script;
use bank_trait::Source;
use std::alloc::Global;

/// Bytes that one read asks for.
const BLOCK: usize = 8192;

/// Reads a script from a source, to the end of its bytes.
///
/// No more is read once there are more than 16,777,216 bytes, or a read has failed; and each read but the last gives
/// one byte at least, so there are 16,777,217 reads at most. The clauses say of the bytes what `parse` says, where the
/// source tells them.
pub fn read_script<S: Source>(alloc: Global, source: &mut S) -> Result<Script, ReadRefused>
    ensures ok { IfOk result (λ script. (bytes : List ℕ) → S.left source.old ≡ Some bytes
        → IsScript bytes script) }
    ensures err { IfErr result
        (IsNotReadFor (S.left source.old) (S.faults source.old) (S.faults source.new)) }
    ensures cause { S.faults source.old ≤ S.faults source.new }
    ensures few { S.reads source.new ≤ S.reads source.old + most_reads }

    // What the calls hold, and whose they are.
    ensures allowed { IfOk result (λ script. All (λ placed. IsAllowed placed.call) script.calls) }
    ensures actors { IfOk result (λ script. (script.clients ≤ 8)
        × All (λ placed. placed.actor < script.clients) script.calls) }

    // Each answer comes wherever it is due, but for want of memory.
    ensures every_script { (bytes : List ℕ) (script : Asked)
        → IsToldWell (S.left source.old) bytes (S.faults source.old) (S.faults source.new)
        → IsScript bytes script → IsReadUnlessNoMemory result (Ok script) }
    ensures every_fault { (bytes : List ℕ) (line : ℕ)
        → IsToldWell (S.left source.old) bytes (S.faults source.old) (S.faults source.new)
        → IsFaultAt bytes line → IsReadFaultUnlessNoMemory result line }
    ensures every_limit { (bytes : List ℕ)
        → IsToldWell (S.left source.old) bytes (S.faults source.old) (S.faults source.new)
        → (over : IsOverLimit bytes)
        → IsReadUnlessNoMemory result (Err (Limit (reached_by bytes over))) }
{
    read_and_parse(alloc, source)
}

fn read_and_parse<S: Source>(alloc: Global, source: &mut S) -> Result<Script, ReadRefused>
    ensures ok { IfOk result (λ script. (bytes : List ℕ) → S.left source.old ≡ Some bytes
        → IsScript bytes script) }
    ensures err { IfErr result
        (IsNotReadFor (S.left source.old) (S.faults source.old) (S.faults source.new)) }
    ensures cause { S.faults source.old ≤ S.faults source.new }
    ensures few { S.reads source.new ≤ S.reads source.old + most_reads }
    ensures allowed { IfOk result (λ script. All (λ placed. IsAllowed placed.call) script.calls) }
    ensures actors { IfOk result (λ script. (script.clients ≤ 8)
        × All (λ placed. placed.actor < script.clients) script.calls) }
{
    let bytes = read_bytes(alloc, source)?;
    let script = parse(alloc, bytes.as_slice())?;
    Ok(script)
}

// All bytes that are left, unless they are too many for a script.
fn read_bytes<S: Source>(alloc: Global, source: &mut S) -> Result<Vec<u8>, ReadRefused>
    ensures ok { IfOk result (λ bytes. (told : List ℕ) → S.left source.old ≡ Some told
        → bytes.items ≡ told) }
    ensures err { IfErr result
        (IsUnreadFor (S.left source.old) (S.faults source.old) (S.faults source.new)) }
    ensures cause { S.faults source.old ≤ S.faults source.new }
    ensures few { S.reads source.new ≤ S.reads source.old + most_reads }
{
    let mut bytes = Vec::new(alloc);
    let mut block = [0; BLOCK];
    while bytes.len() <= MOST_SCRIPT_BYTES {
        let len = source.read(&mut block)?;
        if len == 0 {
            return Ok(bytes);
        }
        bytes.extend_from_slice(&block[..len])?;
    }
    Err(ReadRefused::Limit {
        reached: MOST_SCRIPT_BYTES as u64 + 1,
    })
}
