// The client that widens the pool.
ghost use Rattle.std.specs.Prelude.{◌≡◌, ◌≤◌, OnOk};
ghost use Rattle.client_script.specs.Copier.{copier_call, with_copier};

use crate::call::{Fill, ScriptCall};
use crate::script::Script;
use core_state::Kind;
use std::alloc::{AllocError, Global};

/// The number of the client that widens the pool, behind those that a script may have.
pub const COPIER: u8 = 8;

/// A call of it. It stands on no line.
fn copier_call(kind: Kind) -> ScriptCall
    ensures { result ≡ copier_call kind }
{
    ScriptCall {
        line: 0,
        kind,
        id: None,
        fill: Fill::Nothing,
    }
}

/// Adds a client that widens the pool beside the others: it attaches a device, where that is asked for, and copies. On
/// an error the script may have more clients than before, without calls.
pub fn add_copier(alloc: Global, script: &mut Script, attaches: bool) -> Result<(), AllocError>
    requires clients { script.old.clients ≤ 8 }
    ensures ok { OnOk result (script.new ≡ with_copier attaches script.old) }
{
    for _client in script.clients()..COPIER + 1 {
        script.push_client(alloc)?;
    }
    if attaches {
        script.push_call(COPIER, copier_call(Kind::Attach))?;
    }
    script.push_call(COPIER, copier_call(Kind::Copy))
}
