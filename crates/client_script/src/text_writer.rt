// Short pieces of text, gathered in front of a sink.
ghost use Rattle.std.specs.Prelude.{◌≡◌, ◌⊎◌, ◌+◌, ◌*◌, ◌<◌, ◌≤◌, ℕ, List, [], Option, Bool, true, false, length, take};
ghost use Rattle.std.specs.Prelude.{decimal, OnOk, OnErr};
ghost use Rattle.bank_trait.specs.Causes.{FaultCounted};
ghost use Rattle.client_script.specs.Lines.{hex_text};
ghost use Rattle.client_script.specs.Texts.{devices_text};
ghost use Rattle.client_script.specs.Written.{IsAdded, IsPartAdded, WriterHasText, GainsText, FailsOnlyWithFault};

use crate::hex::spell;
use crate::output::write_all;
use bank_trait::{Failed, Sink};
use itoa::Buffer;
use std::marker::Model;

/// Bytes that wait at most.
const ROOM: usize = 8192;

/// Bytes that are spelled at once, at most: so few that what waits goes out long.
const PIECE: usize = 512;

/// Gathers text, and hands it to a sink in pieces of more than 4 KiB where its own are shorter.
///
/// It takes no memory. After a failed write it drops what it is given, and `finish` tells so. All
/// calls of one writer are given the same sink.
#[derive(Drop)]
pub struct TextWriter {
    buffer: [u8; 8192],
    used: usize,
    failed: bool,
}

impl Model for TextWriter {
    ghost use Rattle.std.specs.Prelude.{◌≤◌, take};
    ghost use Rattle.client_script.specs.Written.{Writing};

    ghost Value = { Writing };

    ghost view = { λ w. record { waiting = take w.used w.buffer; failed = w.failed } };

    ghost invariant = { λ w. w.used ≤ 8192 };
}

impl TextWriter {
    pub fn new() -> TextWriter
        ensures { result ≡ record { waiting = []; failed = false } }
    {
        TextWriter {
            buffer: [0; ROOM],
            used: 0,
            failed: false,
        }
    }

    pub fn text<K: Sink>(&mut self, out: &mut K, text: &[u8])
        ensures gains { GainsText (K.held out.old) (K.held out.new) self.old self.new text.now }
        ensures cause { FailsOnlyWithFault (K.faults out.old) (K.faults out.new) self.old self.new }
    {
        if text.len() <= ROOM - self.used {
            self.keep(text);
        } else {
            self.flush(out);
            self.pass(out, text);
        }
    }

    pub fn number<K: Sink>(&mut self, out: &mut K, number: u64)
        ensures gains { GainsText (K.held out.old) (K.held out.new) self.old self.new (decimal number) }
        ensures cause { FailsOnlyWithFault (K.faults out.old) (K.faults out.new) self.old self.new }
    {
        let mut digits = Buffer::new();
        self.text(out, digits.format(number).as_bytes());
    }

    /// Bytes as two lower-case digits each.
    pub fn hex<K: Sink>(&mut self, out: &mut K, bytes: &[u8])
        ensures gains { GainsText (K.held out.old) (K.held out.new) self.old self.new
            (hex_text bytes.now) }
        ensures cause { FailsOnlyWithFault (K.faults out.old) (K.faults out.new) self.old self.new }
    {
        let mut done = 0;
        while done < bytes.len() {
            let end = bytes.len().min(done + PIECE);
            self.piece(out, &bytes[done..end]);
            done = end;
        }
    }

    /// The devices of a set, ascending, each after a space.
    pub fn devices<K: Sink>(&mut self, out: &mut K, devices: u64)
        ensures gains { GainsText (K.held out.old) (K.held out.new) self.old self.new
            (devices_text devices) }
        ensures cause { FailsOnlyWithFault (K.faults out.old) (K.faults out.new) self.old self.new }
    {
        for device in 0..64 {
            if (devices >> device) % 2 == 1 {
                self.text(out, b" ");
                self.number(out, device);
            }
        }
    }

    /// Hands over what waits, and tells whether some write has failed.
    pub fn finish<K: Sink>(mut self, out: &mut K) -> Result<(), Failed>
        ensures ok { OnOk result ((start : Option (List ℕ)) (text : List ℕ)
            → WriterHasText start (K.held out.old) self text → IsAdded start (K.held out.new) text) }
        ensures err { OnErr result ((start : Option (List ℕ)) (text : List ℕ)
            → WriterHasText start (K.held out.old) self text → IsPartAdded start (K.held out.new) text) }
        ensures later { K.faults out.old ≤ K.faults out.new }
        ensures cause { OnErr result
            ((self.failed ≡ true) ⊎ FaultCounted (K.faults out.old) (K.faults out.new)) }
    {
        self.flush(out);
        if self.failed { Err(Failed) } else { Ok(()) }
    }

    // Bytes that are spelled at once. What waits is handed over where they would not fit behind it.
    fn piece<K: Sink>(&mut self, out: &mut K, bytes: &[u8])
        requires { length bytes.now ≤ PIECE }
        ensures gains { GainsText (K.held out.old) (K.held out.new) self.old self.new
            (hex_text bytes.now) }
        ensures cause { FailsOnlyWithFault (K.faults out.old) (K.faults out.new) self.old self.new }
    {
        if 2 * bytes.len() > ROOM - self.used {
            self.flush(out);
        }
        self.keep_hex(bytes);
    }

    // Lets the digits of bytes wait, for which there is room.
    fn keep_hex(&mut self, bytes: &[u8])
        requires room { length self.old.waiting + 2 * length bytes.now ≤ ROOM }
        ensures gains { (sink : Option (List ℕ))
            → GainsText sink sink self.old self.new (hex_text bytes.now) }
        ensures failed { self.new.failed ≡ self.old.failed }
    {
        let end = self.used + 2 * bytes.len();
        spell(bytes, &mut self.buffer[self.used..end]);
        self.used = end;
    }

    // Lets a text wait, for which there is room.
    fn keep(&mut self, text: &[u8])
        requires room { length self.old.waiting + length text.now ≤ ROOM }
        ensures gains { (sink : Option (List ℕ)) → GainsText sink sink self.old self.new text.now }
        ensures failed { self.new.failed ≡ self.old.failed }
    {
        let end = self.used + text.len();
        self.buffer[self.used..end].copy_from_slice(text);
        self.used = end;
    }

    // Hands over all that waits.
    fn flush<K: Sink>(&mut self, out: &mut K)
        ensures gains { GainsText (K.held out.old) (K.held out.new) self.old self.new [] }
        ensures cause { FailsOnlyWithFault (K.faults out.old) (K.faults out.new) self.old self.new }
        ensures none { self.new.waiting ≡ [] }
    {
        self.failed = hand_over(out, &self.buffer[..self.used], self.failed);
        self.used = 0;
    }

    // Lets a text wait where it is short, and hands it over where it is long.
    fn pass<K: Sink>(&mut self, out: &mut K, text: &[u8])
        requires { self.old.waiting ≡ [] }
        ensures gains { GainsText (K.held out.old) (K.held out.new) self.old self.new text.now }
        ensures cause { FailsOnlyWithFault (K.faults out.old) (K.faults out.new) self.old self.new }
    {
        if text.len() <= ROOM {
            self.keep(text);
        } else {
            self.failed = hand_over(out, text, self.failed);
        }
    }
}

// Writes a piece where no write has failed before, and says whether one has by now.
fn hand_over<K: Sink>(out: &mut K, piece: &[u8], failed: bool) -> bool
    ensures whole { result ≡ false → IsAdded (K.held out.old) (K.held out.new) piece.now }
    ensures part { failed ≡ false → IsPartAdded (K.held out.old) (K.held out.new) piece.now }
    ensures same { failed ≡ true → (K.held out.new ≡ K.held out.old) × (result ≡ true) }
    ensures later { K.faults out.old ≤ K.faults out.new }
    ensures cause { result ≡ true
        → (failed ≡ true) ⊎ FaultCounted (K.faults out.old) (K.faults out.new) }
{
    if failed {
        return true;
    }
    match write_all(out, piece) {
        Ok(()) => false,
        Err(_) => true,
    }
}
