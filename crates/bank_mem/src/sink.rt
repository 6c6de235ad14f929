// A sink for bytes in memory.
ghost use Rattle.std.specs.Prelude.{◌≡◌, ◌-◌, ◌<◌, ◌≤◌, [], length, Some, IfOk, OnOk, OnErr, min};

use bank_trait::{Failed, Sink};
use std::alloc::{AllocError, Global};

#[derive(Drop)]
pub struct MemSink {
    bytes: Vec<u8>,
    /// How many bytes it takes in all.
    room: u64,
    /// How many calls were made.
    made: u64,
    /// The calls that fail, by number from 0.
    fails: Vec<u64>,
    faults: u64,
    ghost within: { length bytes.items ≤ room },
}

impl MemSink {
    ghost use Rattle.bank_mem.specs.MemStreams.{bytes_taken, room_of, write_faults, writes_made, listed_writes};

    /// Takes what still fits in so many bytes; with no room left a write is a fault. The calls of these
    /// numbers, from 0, fail.
    pub fn with_room(alloc: Global, room: u64, fails: &[u64]) -> Result<MemSink, AllocError>
        ensures held { IfOk result (λ s. bytes_taken s ≡ []) }
        ensures room { IfOk result (λ s. room_of s ≡ room) }
        ensures faults { IfOk result (λ s. write_faults s ≡ 0) }
        ensures made { IfOk result (λ s. writes_made s ≡ 0) }
        ensures listed { IfOk result (λ s. listed_writes s ≡ fails.now) }
    {
        Ok(MemSink {
            bytes: Vec::new(alloc),
            room,
            made: 0,
            fails: Vec::from_slice(alloc, fails)?,
            faults: 0,
        })
    }

    /// The bytes taken so far.
    pub fn as_slice(&self) -> &[u8]
        ensures value { result.now ≡ bytes_taken self.now }
    {
        self.bytes.as_slice()
    }
}

impl Sink for MemSink {
    ghost use Rattle.bank_trait.specs.Causes.{HasCause, counted};
    ghost use Rattle.bank_trait.specs.Stream.{Takes};
    ghost use Rattle.bank_mem.specs.MemStreams.{bytes_taken, room_of, write_faults, writes_made, listed_writes};
    ghost use Rattle.bank_mem.specs.MemStreams.{WriteFailsNext};

    ghost held = { λ s. Some (bytes_taken s) };

    ghost faults = { write_faults };

    /// A write fails where it is listed or finds no room, and else only where it finds no memory.
    fn write(&mut self, piece: &[u8]) -> Result<usize, Failed>
        ensures bound { IfOk result (λ k. (k ≤ length piece.now)
            × (0 < length piece.now → 0 < k)) }
        ensures bytes { Takes (Some (bytes_taken self.old)) (Some (bytes_taken self.new)) result piece.now }
        ensures cause { HasCause (write_faults self.old) (write_faults self.new) result }
        ensures none_more { OnOk result (write_faults self.new ≡ write_faults self.old) }
        ensures one_more { OnErr result (write_faults self.new ≡ counted (write_faults self.old)) }
        ensures count { IfOk result (λ k. k
            ≡ min (length piece.now) (room_of self.old - length (bytes_taken self.old))) }
        ensures listed { OnOk result (WriteFailsNext self.old → ⊥) }
        ensures made { writes_made self.new ≡ counted (writes_made self.old) }
        ensures room { room_of self.new ≡ room_of self.old }
        ensures plan { listed_writes self.new ≡ listed_writes self.old }
    {
        let number = self.made;
        self.made = number.saturating_add(1);
        let room = self.room - self.bytes.len() as u64;
        let count = if room < piece.len() as u64 {
            room as usize
        } else {
            piece.len()
        };
        let full = count == 0 && !piece.is_empty();
        if full
            || self.fails.contains(&number)
            || self.bytes.extend_from_slice(&piece[..count]).is_err()
        {
            self.faults = self.faults.saturating_add(1);
            return Err(Failed);
        }
        Ok(count)
    }
}
