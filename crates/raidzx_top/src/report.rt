// What a call writes.
ghost use Rattle.std.specs.Prelude.{◌≡◌, ◌++◌, OnOk, OnErr};
ghost use Rattle.bank_trait.specs.Causes.{HasCause};
ghost use Rattle.client_script.specs.Texts.{journal_text};
ghost use Rattle.client_script.specs.Written.{IsAdded, IsPartAdded, GainsText, FailsOnlyWithFault};
ghost use Rattle.raidzx_top.specs.Making.{IsSaid};
ghost use Rattle.raidzx_top.specs.RunText.{create_text, status_line};

use crate::status::Status;
use bank_trait::{Failed, Sink};
use client_script::{TextWriter, write_journal};
use command_words::NewPool;
use core_state::Journal;

/// Writes the line of a new pool of so many data rows.
pub fn write_created<K: Sink>(out: &mut K, made: &NewPool, rows: u64) -> Result<(), Failed>
    ensures ok { OnOk result (IsAdded (K.held out.old) (K.held out.new)
        (create_text made.now.parity made.now.width made.now.id rows)) }
    ensures err { OnErr result (IsPartAdded (K.held out.old) (K.held out.new)
        (create_text made.now.parity made.now.width made.now.id rows)) }
    ensures cause { HasCause (K.faults out.old) (K.faults out.new) result }
{
    let mut writer = TextWriter::new();
    put_created(&mut writer, out, made, rows);
    writer.finish(out)
}

fn put_created<K: Sink>(writer: &mut TextWriter, out: &mut K, made: &NewPool, rows: u64)
    ensures gains { GainsText (K.held out.old) (K.held out.new) writer.old writer.new
        (create_text made.now.parity made.now.width made.now.id rows) }
    ensures cause { FailsOnlyWithFault (K.faults out.old) (K.faults out.new) writer.old writer.new }
{
    writer.text(out, b"pool ");
    writer.number(out, made.id);
    writer.text(out, b" parity ");
    writer.number(out, u64::from(made.parity));
    writer.text(out, b" width ");
    writer.number(out, u64::from(made.width));
    writer.text(out, b" rows ");
    writer.number(out, rows);
    writer.text(out, b" group 1\n");
}

/// Writes the text of a run: its journal, and the last line for a status.
pub fn write_run<K: Sink>(out: &mut K, journal: &Journal, status: &Status) -> Result<(), Failed>
    ensures ok { OnOk result (IsAdded (K.held out.old) (K.held out.new)
        (journal_text journal.now.items ++ status_line status.now)) }
    ensures err { OnErr result (IsPartAdded (K.held out.old) (K.held out.new)
        (journal_text journal.now.items ++ status_line status.now)) }
    ensures cause { HasCause (K.faults out.old) (K.faults out.new) result }
{
    let mut writer = TextWriter::new();
    put_run(&mut writer, out, journal, status);
    writer.finish(out)
}

fn put_run<K: Sink>(writer: &mut TextWriter, out: &mut K, journal: &Journal, status: &Status)
    ensures gains { GainsText (K.held out.old) (K.held out.new) writer.old writer.new
        (journal_text journal.now.items ++ status_line status.now) }
    ensures cause { FailsOnlyWithFault (K.faults out.old) (K.faults out.new) writer.old writer.new }
{
    write_journal(writer, out, journal);
    put_status(writer, out, status);
}

/// Writes the last line for a status, which for some is empty.
pub fn write_status<K: Sink>(out: &mut K, status: &Status) -> Result<(), Failed>
    ensures ok { OnOk result (IsAdded (K.held out.old) (K.held out.new) (status_line status.now)) }
    ensures err { OnErr result
        (IsPartAdded (K.held out.old) (K.held out.new) (status_line status.now)) }
    ensures cause { HasCause (K.faults out.old) (K.faults out.new) result }
{
    let mut writer = TextWriter::new();
    put_status(&mut writer, out, status);
    writer.finish(out)
}

/// Writes the line of a refusal, whose status stays as it is.
pub fn refuse<K: Sink>(out: &mut K, status: Status) -> Status
    ensures same { result ≡ status }
    ensures said { IsSaid (K.held out.old) (K.held out.new) (K.faults out.old) (K.faults out.new)
        (status_line status) }
{
    let _ = write_status(out, &status);
    status
}

fn put_status<K: Sink>(writer: &mut TextWriter, out: &mut K, status: &Status)
    ensures gains { GainsText (K.held out.old) (K.held out.new) writer.old writer.new
        (status_line status.now) }
    ensures cause { FailsOnlyWithFault (K.faults out.old) (K.faults out.new) writer.old writer.new }
{
    match status {
        Status::Done | Status::SinkFault => writer.text(out, b""),
        Status::Usage => writer.text(out, b"usage\n"),
        Status::ScriptFault { line, why: _ } => {
            writer.text(out, b"script line ");
            writer.number(out, *line);
            writer.text(out, b"\n");
        }
        Status::NotPool => writer.text(out, b"not a pool\n"),
        Status::TooManyFailed { out: failed } => {
            writer.text(out, b"too many failed");
            writer.devices(out, failed.bits());
            writer.text(out, b"\n");
        }
        Status::TooSmall => writer.text(out, b"too small\n"),
        Status::SourceFault => writer.text(out, b"source fault\n"),
        Status::NoMemory => writer.text(out, b"no memory\n"),
        Status::Limit => writer.text(out, b"limit\n"),
    }
}
