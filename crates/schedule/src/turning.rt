// A call's turns.
ghost use Rattle.std.specs.Prelude.{◌≡◌, ◌⊎◌, ◌≤◌, IfSome, true, false, None, Some, length};
ghost use Rattle.bank_trait.specs.Disk.{Disk};
ghost use Rattle.reconstruct.specs.Rows.{sectors_for};
ghost use Rattle.core_blocks.specs.Blocks.{IsUnderWay};
ghost use Rattle.shadow_write.specs.Band.{IsFrontOf};
ghost use Rattle.core_client.specs.Pool.{IsInPool};
ghost use Rattle.client_script.specs.Lines.{fill_bytes};
ghost use Rattle.client_script.specs.Script.{IsAllowed};
ghost use Rattle.core_turns.specs.declared.filling.Filled.{Filled as FilledOf};
ghost use Rattle.core_turns.specs.Core.{Core as CoreOf, at_disk, HasBankOf};
ghost use Rattle.core_turns.specs.Getting.{IsAlike, IsGetOf, IsReadKind, SolvesGet, to_solve_of};
ghost use Rattle.core_turns.specs.Putting.{IsFillable, IsPutOf, to_fill_of};
ghost use Rattle.core_turns.specs.Steps.{turn_with};
ghost use Rattle.core_turns.specs.UnderWay.{TurnGoesOn};
ghost use Rattle.core_state.specs.declared.answer.Answer.TheVariants as answer;
ghost use Rattle.schedule.specs.Computing.{FitsWork, IsMadeUpOf, IsComputedOf, IsSolvedOf};
ghost use Rattle.schedule.specs.Turned.{BeginsCall, GoesOnBy, HasDeviceFor, HasDeviceForTurn, HasTableOf, IsFilledIn};
ghost use Rattle.schedule.specs.Turned.{MayGoOn, PutGoesOn, ReadGoesOn, WorkGoesOn, WritesOn};

use crate::client::Work;
use crate::computing::{Computed, put_bytes};
use bank_trait::Bank;
use client_script::{Fill, ScriptCall};
use core_state::{Answer, Kind};
use core_turns::{Core, GetRun, MadeUp, PutRun, SolvedFrom, Turn};
use std::alloc::Global;

/// How many bytes a put is handed.
fn fill_len(fill: &Fill) -> u32
    requires few { length (fill_bytes fill.now) ≤ 65536 }
    ensures { result ≡ length (fill_bytes fill.now) }
{
    match fill {
        Fill::Nothing => 0,
        Fill::Pattern { len, seed: _ } => *len,
        Fill::Hex(bytes) => bytes.as_slice().len() as u32,
    }
}

/// The first turn of a call.
pub fn begin_call<B: Bank>(
    alloc: Global,
    bank: &B,
    core: &mut Core,
    actor: u8,
    call: &ScriptCall,
) -> Turn<Work>
    requires allowed { IsAllowed call.now }
    ensures begins { BeginsCall core.old core.new (B.disk bank.now).devices actor call.now result }
    ensures table { HasTableOf core.old result }
    ensures there { HasDeviceForTurn (B.disk bank.now) result }
    ensures bank { (disk : Disk) → HasBankOf core.old disk
        → HasBankOf core.new disk }
{
    match call.id {
        Some(id) => begin_block_call(alloc, bank, core, actor, call, id),
        None => begin_pool_call(alloc, bank, core, actor, call),
    }
}

/// The first turn of a call that names no block.
fn begin_pool_call<B: Bank>(
    alloc: Global,
    bank: &B,
    core: &mut Core,
    actor: u8,
    call: &ScriptCall,
) -> Turn<Work>
    requires allowed { IsAllowed call.now }
    requires id { call.now.id ≡ None }
    ensures begins { BeginsCall core.old core.new (B.disk bank.now).devices actor call.now result }
    ensures table { HasTableOf core.old result }
    ensures there { HasDeviceForTurn (B.disk bank.now) result }
    ensures bank { (disk : Disk) → HasBankOf core.old disk
        → HasBankOf core.new disk }
{
    match call.kind {
        Kind::Attach => core.attach_begin(bank, actor).map(Work::Attach),
        Kind::Copy => core.copy_begin(alloc, actor).map(Work::Copy),
        _ => core.commit_begin(alloc, actor).map(Work::Sync),
    }
}

/// The first turn of a call that names a block.
fn begin_block_call<B: Bank>(
    alloc: Global,
    bank: &B,
    core: &mut Core,
    actor: u8,
    call: &ScriptCall,
    id: u64,
) -> Turn<Work>
    requires allowed { IsAllowed call.now }
    requires id { call.now.id ≡ Some id }
    ensures begins { BeginsCall core.old core.new (B.disk bank.now).devices actor call.now result }
    ensures table { HasTableOf core.old result }
    ensures there { HasDeviceForTurn (B.disk bank.now) result }
    ensures bank { (disk : Disk) → HasBankOf core.old disk
        → HasBankOf core.new disk }
{
    match call.kind {
        Kind::Put => core
            .put_begin(actor, id, fill_len(&call.fill))
            .map(Work::Put),
        Kind::Get | Kind::Sum => core.get_begin(alloc, actor, call.kind, id).map(Work::Read),
        Kind::Free => Turn::Done(core.free(id)),
        _ => unreachable!(),
    }
}

/// Fills a put's block in, unless it was before. Tells whether there was memory for it.
fn fill_in(alloc: Global, call: &ScriptCall, run: &mut PutRun, made: Option<Box<MadeUp>>) -> bool
    requires fillable { IsFillable (to_fill_of run.old) (fill_bytes call.now.fill) }
    requires made { IfSome made (λ made. IsMadeUpOf (fill_bytes call.now.fill) made.value) }
    ensures fills { result ≡ true → IsFilledIn call.now run.old run.new }
    ensures filled { result ≡ true → (filled : FilledOf) × (run.new.filled ≡ Some filled) }
    ensures no_memory { result ≡ false → (run.new ≡ run.old) × (run.old.filled ≡ None) }
    ensures taken { IfSome made (λ made. made.value.block ≡ to_fill_of run.old → result ≡ true) }
{
    if run.is_filled() {
        return true;
    }
    if let Some(made) = made {
        if run.take_block(Box::into_inner(made)) {
            return true;
        }
    }
    match put_bytes(alloc, &call.fill) {
        Ok(bytes) => run.fill(alloc, bytes.as_slice()).is_ok(),
        Err(_) => false,
    }
}

/// The next write of a put that is filled in, or its last turn.
fn write_on<B: Bank>(bank: &mut B, core: &mut Core, run: &mut PutRun) -> Option<Answer>
    requires of { IsPutOf core.old run.old }
    requires under_way { IsUnderWay core.old.pool.blocks run.old.range }
    requires filled { (filled : FilledOf) × (run.old.filled ≡ Some filled) }
    requires bank { HasBankOf core.old (B.disk bank.old) }
    ensures writes { WritesOn (at_disk core.old (B.disk bank.old)) run.old
        (at_disk core.new (B.disk bank.new)) (turn_with run.new result) }
    ensures goes_on { TurnGoesOn (at_disk core.old (B.disk bank.old))
        (at_disk core.new (B.disk bank.new)) }
{
    if run.is_written() {
        Some(core.put_end(run))
    } else {
        core.put_write(bank, run)
    }
}

/// A put's block is filled in before its first write.
fn go_on_putting<B: Bank>(
    alloc: Global,
    bank: &mut B,
    core: &mut Core,
    call: &ScriptCall,
    run: &mut PutRun,
    made: Option<Box<MadeUp>>,
) -> Option<Answer>
    requires of { IsPutOf core.old run.old }
    requires under_way { IsUnderWay core.old.pool.blocks run.old.range }
    requires len { length (fill_bytes call.now.fill) ≡ run.old.len }
    requires made { IfSome made (λ made. IsMadeUpOf (fill_bytes call.now.fill) made.value) }
    requires bank { HasBankOf core.old (B.disk bank.old) }
    ensures goes { PutGoesOn (at_disk core.old (B.disk bank.old)) (at_disk core.new (B.disk bank.new))
        call.now run.old (turn_with run.new result) }
    ensures goes_on { TurnGoesOn (at_disk core.old (B.disk bank.old))
        (at_disk core.new (B.disk bank.new)) }

    // A block that was made up for this put is taken: there is memory for the put then.
    ensures taken { IfSome made (λ made. made.value.block ≡ to_fill_of run.old → result ≡ Some answer.NoMemory → ⊥) }
{
    if fill_in(alloc, call, run, made) {
        write_on(bank, core, run)
    } else {
        Some(core.put_give_up(run))
    }
}

/// Solves a read's block, where there is memory for that.
fn solve(alloc: Global, run: &mut GetRun, solved: Option<Box<SolvedFrom>>)
    requires len { sectors_for run.old.entry.len ≡ run.old.read.layout.sectors }
    requires solved { IfSome solved (λ from. IsSolvedOf from.value) }
    ensures solves { (run.new ≡ run.old) ⊎ SolvesGet run.old run.new }
    ensures taken { IfSome solved (λ from. IsAlike from.value.block (to_solve_of run.old) → SolvesGet run.old run.new) }
{
    if let Some(solved) = solved {
        if run.take_solved(Box::into_inner(solved)) {
            return;
        }
    }
    let _ = run.solve(alloc);
}

/// A read's block is solved before its last turn. Where there is no memory for that, the last turn says so.
fn go_on_reading<B: Bank>(
    alloc: Global,
    bank: &mut B,
    core: &mut Core,
    run: &mut GetRun,
    solved: Option<Box<SolvedFrom>>,
) -> Option<Answer>
    requires kind { IsReadKind run.old.kind }
    requires of { IsGetOf core.old run.old }
    requires solved { IfSome solved (λ from. IsSolvedOf from.value) }
    requires bank { HasBankOf core.old (B.disk bank.old) }
    ensures goes { ReadGoesOn (at_disk core.old (B.disk bank.old))
        (at_disk core.new (B.disk bank.new)) run.old (turn_with run.new result) }
    ensures goes_on { TurnGoesOn (at_disk core.old (B.disk bank.old))
        (at_disk core.new (B.disk bank.new)) }

    // A block that was solved for this read is taken: there is memory for the read then.
    ensures taken { IfSome solved (λ from. IsAlike from.value.block (to_solve_of run.old)
        → result ≡ Some answer.NoMemory → ⊥) }
{
    if !run.is_read() {
        return core.get_read(bank, run);
    }
    solve(alloc, run, solved);
    Some(core.get_end(run))
}

/// The next turn of a call that is under way: it goes on, or is answered.
pub fn go_on<B: Bank>(
    alloc: Global,
    bank: &mut B,
    core: &mut Core,
    call: &ScriptCall,
    work: &mut Work,
    computed: Computed,
) -> Option<Answer>
    requires may { MayGoOn core.old call.now work.old }
    requires computed { IsComputedOf call.now computed }
    requires there { HasDeviceFor (B.disk bank.old) work.old }
    requires bank { HasBankOf core.old (B.disk bank.old) }
    ensures goes { GoesOnBy (at_disk core.old (B.disk bank.old)) (at_disk core.new (B.disk bank.new))
        call.now work.old (turn_with work.new result) }
    ensures goes_on { WorkGoesOn work.old (at_disk core.old (B.disk bank.old))
        (at_disk core.new (B.disk bank.new)) }
    ensures there { HasDeviceForTurn (B.disk bank.new) (turn_with work.new result) }
    ensures bank { HasBankOf core.new (B.disk bank.new) }

    // What was computed for this call is taken: there is memory for the call then.
    ensures taken { FitsWork work.old computed → result ≡ Some answer.NoMemory → ⊥ }
{
    match work {
        Work::Put(run) => go_on_putting(alloc, bank, core, call, run, computed.into_block()),
        Work::Read(run) => go_on_reading(alloc, bank, core, run, computed.into_solved()),
        Work::Sync(run) => core.commit_step(bank, run),
        Work::Attach(run) => core.attach_step(alloc, bank, run),
        Work::Copy(round) => core.copy_step(alloc, bank, round),
    }
}
