// A source of bytes in memory.
ghost use Rattle.std.specs.Prelude.{◌≡◌, ◌≤◌, length, Some, IfOk, OnOk, OnErr, min};

use bank_trait::{Failed, Source};
use std::alloc::{AllocError, Global};

#[derive(Drop)]
pub struct MemSource {
    bytes: Vec<u8>,
    /// How many bytes were handed over.
    at: usize,
    /// How many calls were made.
    made: u64,
    /// The calls that fail, by number from 0.
    fails: Vec<u64>,
    faults: u64,
    ghost within: { at ≤ length bytes.items },
}

impl MemSource {
    ghost use Rattle.bank_mem.specs.MemStreams.{bytes_left, read_faults, reads_made, listed_reads};

    /// Hands over these bytes. The calls of these numbers, from 0, fail.
    pub fn new(alloc: Global, bytes: &[u8], fails: &[u64]) -> Result<MemSource, AllocError>
        ensures left { IfOk result (λ s. bytes_left s ≡ bytes.now) }
        ensures faults { IfOk result (λ s. read_faults s ≡ 0) }
        ensures made { IfOk result (λ s. reads_made s ≡ 0) }
        ensures listed { IfOk result (λ s. listed_reads s ≡ fails.now) }
    {
        Ok(MemSource {
            bytes: Vec::from_slice(alloc, bytes)?,
            at: 0,
            made: 0,
            fails: Vec::from_slice(alloc, fails)?,
            faults: 0,
        })
    }
}

impl Source for MemSource {
    ghost use Rattle.bank_trait.specs.Causes.{HasCause, counted};
    ghost use Rattle.bank_trait.specs.Stream.{Hands};
    ghost use Rattle.bank_mem.specs.MemStreams.{bytes_left, read_faults, reads_made, listed_reads, ReadFailsNext};

    ghost left = { λ s. Some (bytes_left s) };

    ghost faults = { read_faults };

    ghost reads = { reads_made };

    /// A read fails where it is listed, and nowhere else.
    fn read(&mut self, into: &mut [u8]) -> Result<usize, Failed>
        ensures bound { IfOk result (λ k. k ≤ length into.new) }
        ensures bytes { Hands (Some (bytes_left self.old)) (Some (bytes_left self.new)) result into.new }
        ensures cause { HasCause (read_faults self.old) (read_faults self.new) result }
        ensures none_more { OnOk result (read_faults self.new ≡ read_faults self.old) }
        ensures one_more { OnErr result (read_faults self.new ≡ counted (read_faults self.old)) }
        ensures count { IfOk result (λ k. k ≡ min (length into.new) (length (bytes_left self.old))) }
        ensures listed { OnOk result (ReadFailsNext self.old → ⊥) }
        ensures only_listed { OnErr result (ReadFailsNext self.old) }
        ensures made { reads_made self.new ≡ counted (reads_made self.old) }
        ensures plan { listed_reads self.new ≡ listed_reads self.old }
    {
        let number = self.made;
        self.made = number.saturating_add(1);
        if self.fails.contains(&number) {
            self.faults = self.faults.saturating_add(1);
            return Err(Failed);
        }
        let count = into.len().min(self.bytes.len() - self.at);
        into[..count].copy_from_slice(&self.bytes[self.at..self.at + count]);
        self.at += count;
        Ok(count)
    }
}
