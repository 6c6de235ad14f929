// Whole texts to a sink.
ghost use Rattle.std.specs.Prelude.{OnOk, OnErr};
ghost use Rattle.bank_trait.specs.Causes.{HasCause};
ghost use Rattle.client_script.specs.Written.{IsAdded, IsPartAdded};

use bank_trait::{Failed, Sink};

/// Writes all of a text. After a failure a front of it is written.
pub fn write_all<K: Sink>(out: &mut K, text: &[u8]) -> Result<(), Failed>
    ensures ok { OnOk result (IsAdded (K.held out.old) (K.held out.new) text.now) }
    ensures err { OnErr result (IsPartAdded (K.held out.old) (K.held out.new) text.now) }
    ensures cause { HasCause (K.faults out.old) (K.faults out.new) result }
{
    let mut rest = text;
    while !rest.is_empty() {
        let taken = out.write(rest)?;
        rest = &rest[taken..];
    }
    Ok(())
}
