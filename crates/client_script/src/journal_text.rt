// The text of a journal.
ghost use Rattle.std.specs.Prelude.{◌≡◌, ◌++◌, [], ◌∷◌, codes, decimal, OnOk, OnErr};
ghost use Rattle.bank_trait.specs.Causes.{HasCause};
ghost use Rattle.client_script.specs.Lines.{hex_text};
ghost use Rattle.client_script.specs.Texts.{actor_letter as letter_of, kind_word as word_of, number_after_space};
ghost use Rattle.client_script.specs.Texts.{point_text, numbers_text, damaged_text, answer_text, entry_text, item_text};
ghost use Rattle.client_script.specs.Texts.{journal_text};
ghost use Rattle.client_script.specs.Written.{IsAdded, IsPartAdded, GainsText, FailsOnlyWithFault};

use crate::text_writer::TextWriter;
use bank_trait::{Failed, Sink};
use core_state::{Answer, Entry, Item, Journal, Kind};

/// Writes the text of a journal. After a failure a front of it is written. Takes no memory.
pub fn print_journal<K: Sink>(journal: &Journal, out: &mut K) -> Result<(), Failed>
    ensures ok { OnOk result
        (IsAdded (K.held out.old) (K.held out.new) (journal_text journal.now.items)) }
    ensures err { OnErr result
        (IsPartAdded (K.held out.old) (K.held out.new) (journal_text journal.now.items)) }
    ensures cause { HasCause (K.faults out.old) (K.faults out.new) result }
{
    let mut writer = TextWriter::new();
    write_journal(&mut writer, out, journal);
    writer.finish(out)
}

/// Hands the text of a journal to a writer.
pub fn write_journal<K: Sink>(writer: &mut TextWriter, out: &mut K, journal: &Journal)
    ensures gains { GainsText (K.held out.old) (K.held out.new) writer.old writer.new
        (journal_text journal.now.items) }
    ensures cause { FailsOnlyWithFault (K.faults out.old) (K.faults out.new) writer.old writer.new }
{
    for (number, item) in journal.as_slice().iter().enumerate() {
        put_line(writer, out, number as u64, item);
    }
}

fn put_line<K: Sink>(writer: &mut TextWriter, out: &mut K, number: u64, item: &Item)
    ensures gains { GainsText (K.held out.old) (K.held out.new) writer.old writer.new
        (decimal number ++ codes " " ++ item_text item.now ++ codes "\n") }
    ensures cause { FailsOnlyWithFault (K.faults out.old) (K.faults out.new) writer.old writer.new }
{
    writer.number(out, number);
    writer.text(out, b" ");
    put_item(writer, out, item);
    writer.text(out, b"\n");
}

fn put_item<K: Sink>(writer: &mut TextWriter, out: &mut K, item: &Item)
    ensures gains { GainsText (K.held out.old) (K.held out.new) writer.old writer.new
        (item_text item.now) }
    ensures cause { FailsOnlyWithFault (K.faults out.old) (K.faults out.new) writer.old writer.new }
{
    match item {
        Item::Group(group) => {
            put_number(writer, out, b"group ", group.group);
            put_number(writer, out, b" after ", group.after);
        }
        Item::Call(entry) => put_entry(writer, out, entry),
    }
}

fn put_entry<K: Sink>(writer: &mut TextWriter, out: &mut K, entry: &Entry)
    ensures gains { GainsText (K.held out.old) (K.held out.new) writer.old writer.new
        (entry_text entry.now) }
    ensures cause { FailsOnlyWithFault (K.faults out.old) (K.faults out.new) writer.old writer.new }
{
    writer.text(out, &[actor_letter(entry.caller), b'.']);
    writer.number(out, entry.call);
    writer.text(out, b" ");
    writer.text(out, kind_word(entry.kind));
    put_id(writer, out, entry.id);
    put_point(writer, out, entry.at);
    put_answer(writer, out, &entry.answer);
}

fn put_id<K: Sink>(writer: &mut TextWriter, out: &mut K, id: Option<u64>)
    ensures gains { GainsText (K.held out.old) (K.held out.new) writer.old writer.new
        (number_after_space id) }
    ensures cause { FailsOnlyWithFault (K.faults out.old) (K.faults out.new) writer.old writer.new }
{
    match id {
        Some(id) => put_number(writer, out, b" ", id),
        None => writer.text(out, b""),
    }
}

fn put_point<K: Sink>(writer: &mut TextWriter, out: &mut K, at: Option<u64>)
    ensures gains { GainsText (K.held out.old) (K.held out.new) writer.old writer.new
        (point_text at) }
    ensures cause { FailsOnlyWithFault (K.faults out.old) (K.faults out.new) writer.old writer.new }
{
    match at {
        Some(at) => put_number(writer, out, b" at ", at),
        None => writer.text(out, b""),
    }
}

fn put_answer<K: Sink>(writer: &mut TextWriter, out: &mut K, answer: &Answer)
    ensures gains { GainsText (K.held out.old) (K.held out.new) writer.old writer.new
        (answer_text answer.now) }
    ensures cause { FailsOnlyWithFault (K.faults out.old) (K.faults out.new) writer.old writer.new }
{
    match answer {
        Answer::Stored => writer.text(out, b" ok"),
        Answer::Read { bytes } => put_bytes(writer, out, b" bytes ", bytes.as_slice()),
        Answer::Digest { len, sha } => put_digest(writer, out, *len, sha),
        Answer::Freed => writer.text(out, b" ok"),
        Answer::Synced { group } => put_number(writer, out, b" group ", *group),
        Answer::Attached { width, group } => {
            put_number(writer, out, b" width ", u64::from(*width));
            put_number(writer, out, b" group ", *group);
        }
        Answer::Completed { width } => put_number(writer, out, b" done width ", u64::from(*width)),
        Answer::Scrubbed {
            blocks,
            repaired,
            damaged,
        } => { put_scrub(writer, out, *blocks, *repaired, damaged.as_slice()) }
        Answer::Absent => writer.text(out, b" absent"),
        Answer::NoSpace { sectors } => put_number(writer, out, b" no space ", *sectors),
        Answer::Full => writer.text(out, b" full"),
        Answer::Damaged => writer.text(out, b" damaged"),
        Answer::Expanding { to } => put_number(writer, out, b" expanding to ", u64::from(*to)),
        Answer::DeviceOut { device } => {
            put_number(writer, out, b" device out ", u64::from(*device))
        }
        Answer::NoDevice { devices: _, width } => {
            put_number(writer, out, b" no device ", u64::from(*width))
        }
        Answer::NewDeviceFailed { device } => {
            put_number(writer, out, b" new device failed ", u64::from(*device))
        }
        Answer::Taken { slot } => put_number(writer, out, b" taken ", u64::from(*slot)),
        Answer::Paused { device } => put_number(writer, out, b" paused ", u64::from(*device)),
        Answer::TooManyFailed { out: failed } => {
            writer.text(out, b" too many failed");
            writer.devices(out, *failed);
        }
        Answer::Limit { reached: _ } => writer.text(out, b" limit"),
        Answer::NoMemory => writer.text(out, b" no memory"),
    }
}

fn put_scrub<K: Sink>(
    writer: &mut TextWriter,
    out: &mut K,
    blocks: u32,
    repaired: u64,
    damaged: &[u64],
)
    ensures gains { GainsText (K.held out.old) (K.held out.new) writer.old writer.new
        (codes " blocks " ++ decimal blocks ++ codes " repaired " ++ decimal repaired
        ++ codes " damaged" ++ damaged_text damaged.now) }
    ensures cause { FailsOnlyWithFault (K.faults out.old) (K.faults out.new) writer.old writer.new }
{
    put_number(writer, out, b" blocks ", u64::from(blocks));
    put_number(writer, out, b" repaired ", repaired);
    writer.text(out, b" damaged");
    put_damaged(writer, out, damaged);
}

fn put_damaged<K: Sink>(writer: &mut TextWriter, out: &mut K, damaged: &[u64])
    ensures gains { GainsText (K.held out.old) (K.held out.new) writer.old writer.new
        (damaged_text damaged.now) }
    ensures cause { FailsOnlyWithFault (K.faults out.old) (K.faults out.new) writer.old writer.new }
{
    if damaged.is_empty() {
        writer.text(out, b" none");
    } else {
        put_numbers(writer, out, damaged);
    }
}

fn put_numbers<K: Sink>(writer: &mut TextWriter, out: &mut K, numbers: &[u64])
    ensures gains { GainsText (K.held out.old) (K.held out.new) writer.old writer.new
        (numbers_text numbers.now) }
    ensures cause { FailsOnlyWithFault (K.faults out.old) (K.faults out.new) writer.old writer.new }
{
    for number in numbers {
        put_number(writer, out, b" ", *number);
    }
}

fn put_digest<K: Sink>(writer: &mut TextWriter, out: &mut K, len: u32, sha: &[u8])
    ensures gains { GainsText (K.held out.old) (K.held out.new) writer.old writer.new
        (codes " length " ++ decimal len ++ codes " sha " ++ hex_text sha.now) }
    ensures cause { FailsOnlyWithFault (K.faults out.old) (K.faults out.new) writer.old writer.new }
{
    put_number(writer, out, b" length ", u64::from(len));
    put_bytes(writer, out, b" sha ", sha);
}

fn put_number<K: Sink>(writer: &mut TextWriter, out: &mut K, name: &[u8], number: u64)
    ensures gains { GainsText (K.held out.old) (K.held out.new) writer.old writer.new
        (name.now ++ decimal number) }
    ensures cause { FailsOnlyWithFault (K.faults out.old) (K.faults out.new) writer.old writer.new }
{
    writer.text(out, name);
    writer.number(out, number);
}

fn put_bytes<K: Sink>(writer: &mut TextWriter, out: &mut K, name: &[u8], bytes: &[u8])
    ensures gains { GainsText (K.held out.old) (K.held out.new) writer.old writer.new
        (name.now ++ hex_text bytes.now) }
    ensures cause { FailsOnlyWithFault (K.faults out.old) (K.faults out.new) writer.old writer.new }
{
    writer.text(out, name);
    writer.hex(out, bytes);
}

fn actor_letter(actor: u8) -> u8
    ensures { result ≡ letter_of actor }
{
    match actor {
        0..=7 => b'a' + actor,
        8 => b'x',
        _ => b'z',
    }
}

fn kind_word(kind: Kind) -> &'static [u8]
    ensures { result.now ≡ word_of kind }
{
    match kind {
        Kind::Put => b"put",
        Kind::Get => b"get",
        Kind::Sum => b"sum",
        Kind::Free => b"free",
        Kind::Sync => b"sync",
        Kind::Attach => b"attach",
        Kind::Copy => b"copy",
        Kind::Scrub => b"scrub",
    }
}
