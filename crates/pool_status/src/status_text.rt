// The lines of a look at a pool.
ghost use Rattle.std.specs.Prelude.{◌≡◌, ◌++◌, flat_map, decimal, OnOk, OnErr};
ghost use Rattle.bank_trait.specs.Causes.{HasCause};
ghost use Rattle.client_script.specs.Written.{IsAdded, IsPartAdded, GainsText, FailsOnlyWithFault};
ghost use Rattle.pool_status.specs.StatusText.{state_word as word_of, width_text, birth_text, out_text, pool_line};
ghost use Rattle.pool_status.specs.StatusText.{text_of_status};

use bank_trait::{Failed, Sink};
use client_script::TextWriter;
use reflow_mark::{Reflow, State};
use uberblock_ring::{DeviceSet, Uber};
use width_map::Birth;

/// Writes what a look at a pool tells: the chosen uberblock, and the devices that are out.
///
/// A look finds more devices out than the uberblock lists, as those that failed since, so it hands
/// them in. After a failure a front of the text is written. Takes no memory.
pub fn print_status<K: Sink>(uber: &Uber, out_devices: DeviceSet, out: &mut K) -> Result<(), Failed>
    ensures ok { OnOk result (IsAdded (K.held out.old) (K.held out.new)
        (text_of_status uber.now out_devices)) }
    ensures err { OnErr result (IsPartAdded (K.held out.old) (K.held out.new)
        (text_of_status uber.now out_devices)) }
    ensures cause { HasCause (K.faults out.old) (K.faults out.new) result }
{
    let mut writer = TextWriter::new();
    put_status(&mut writer, out, uber, out_devices);
    writer.finish(out)
}

fn put_status<K: Sink>(writer: &mut TextWriter, out: &mut K, uber: &Uber, out_devices: DeviceSet)
    ensures gains { GainsText (K.held out.old) (K.held out.new) writer.old writer.new
        (text_of_status uber.now out_devices) }
    ensures cause { FailsOnlyWithFault (K.faults out.old) (K.faults out.new) writer.old writer.new }
{
    put_pool(writer, out, uber);
    writer.text(out, b"\n");
    put_width(writer, out, &uber.reflow());
    writer.text(out, b"\nbirths");
    put_births(writer, out, uber.births().as_slice());
    writer.text(out, b"\nout");
    put_out(writer, out, out_devices);
    writer.text(out, b"\nblocks ");
    writer.number(out, u64::from(uber.count()));
    writer.text(out, b"\n");
}

fn put_pool<K: Sink>(writer: &mut TextWriter, out: &mut K, uber: &Uber)
    ensures gains { GainsText (K.held out.old) (K.held out.new) writer.old writer.new
        (pool_line uber.now) }
    ensures cause { FailsOnlyWithFault (K.faults out.old) (K.faults out.new) writer.old writer.new }
{
    put_number(writer, out, b"pool ", uber.pool());
    put_number(writer, out, b" parity ", u64::from(uber.parity()));
    put_number(writer, out, b" rows ", uber.reflow().rows);
    put_number(writer, out, b" group ", uber.group());
}

// At rest there is one width, and nothing to say of mark and state.
fn put_width<K: Sink>(writer: &mut TextWriter, out: &mut K, reflow: &Reflow)
    ensures gains { GainsText (K.held out.old) (K.held out.new) writer.old writer.new
        (width_text reflow.now) }
    ensures cause { FailsOnlyWithFault (K.faults out.old) (K.faults out.new) writer.old writer.new }
{
    put_number(writer, out, b"width ", u64::from(reflow.from));
    if reflow.from != reflow.to {
        put_number(writer, out, b" to ", u64::from(reflow.to));
        put_number(writer, out, b" mark ", reflow.mark);
        writer.text(out, b" state ");
        writer.text(out, state_word(reflow.state));
    }
}

fn state_word(state: State) -> &'static [u8]
    ensures { result.now ≡ word_of state }
{
    match state {
        State::None => b"none",
        State::Valid => b"valid",
        State::Moved => b"moved",
    }
}

fn put_births<K: Sink>(writer: &mut TextWriter, out: &mut K, births: &[Birth])
    ensures gains { GainsText (K.held out.old) (K.held out.new) writer.old writer.new
        (flat_map birth_text births.now) }
    ensures cause { FailsOnlyWithFault (K.faults out.old) (K.faults out.new) writer.old writer.new }
{
    for birth in births {
        put_birth(writer, out, birth);
    }
}

fn put_birth<K: Sink>(writer: &mut TextWriter, out: &mut K, birth: &Birth)
    ensures gains { GainsText (K.held out.old) (K.held out.new) writer.old writer.new
        (birth_text birth.now) }
    ensures cause { FailsOnlyWithFault (K.faults out.old) (K.faults out.new) writer.old writer.new }
{
    put_number(writer, out, b" ", birth.group);
    put_number(writer, out, b":", u64::from(birth.width));
}

fn put_out<K: Sink>(writer: &mut TextWriter, out: &mut K, out_devices: DeviceSet)
    ensures gains { GainsText (K.held out.old) (K.held out.new) writer.old writer.new
        (out_text out_devices) }
    ensures cause { FailsOnlyWithFault (K.faults out.old) (K.faults out.new) writer.old writer.new }
{
    if out_devices.is_empty() {
        writer.text(out, b" none");
    } else {
        writer.devices(out, out_devices.bits());
    }
}

fn put_number<K: Sink>(writer: &mut TextWriter, out: &mut K, name: &[u8], number: u64)
    ensures gains { GainsText (K.held out.old) (K.held out.new) writer.old writer.new
        (name.now ++ decimal number) }
    ensures cause { FailsOnlyWithFault (K.faults out.old) (K.faults out.new) writer.old writer.new }
{
    writer.text(out, name);
    writer.number(out, number);
}
