// How a command over files is let in, and what is told before it is carried out.
ghost use Rattle.std.specs.Prelude.{ℕ, IfErr, OnOk};
ghost use Rattle.bank_trait.specs.Disk.{Unchanged};
ghost use Rattle.raidzx.specs.Refused.{IsRefusal, IsRefusedPlace};

use crate::door::{Pool, Survey, look_around, refused_places};
use crate::door_notes::{tell_status, tell_survey};
use crate::notes::{note_lengths, note_short};
use crate::sightings::greatest;
use bank_trait::Bank;
use command_words::ServedCommand;
use raidzx_top::Status;
use std::alloc::Global;
use uberblock_ring::{DeviceSet, Uber};
use width_map::FIRST_DATA_SECTOR;

/// Looks at the images, by reads alone, tells what is not as it should be, and lets the command in or refuses it.
#[tactic(auto, using(core_open::proofs::Unchanged::unchanged_none, core_open::proofs::Unchanged::unchanged_then))]
pub fn look_first<R: Eprint, B: Bank>(
    rt: &R,
    alloc: Global,
    names: &[String],
    command: &[String],
    served: ServedCommand,
    lengths: &[u64],
    bank: &mut B,
) -> Result<(), Status>
    ensures { Unchanged (B.disk bank.old) (B.disk bank.new) }
{
    if makes_pool(served) {
        note_lengths(rt, names, lengths);
        return Ok(());
    }
    let Ok(survey) = look_around(alloc, bank, false) else {
        return Err(Status::NoMemory);
    };
    let_in(rt, alloc, names, command, lengths, &survey)
}

/// Tells what is not as it should be. A command that changes a pool is refused where a slip in the words would cost a
/// disk.
fn let_in<R: Eprint>(
    rt: &R,
    alloc: Global,
    names: &[String],
    command: &[String],
    lengths: &[u64],
    survey: &Survey,
) -> Result<(), Status>
    ensures ok { OnOk result ((place : ℕ) → IsRefusedPlace survey.now place → ⊥) }
    ensures err { IfErr result (IsRefusal survey.now) }
{
    let refused = refused_places(survey);
    tell_survey(rt, alloc, names, command, survey, refused);
    if !refused.is_empty() {
        return Err(Status::TooManyFailed { out: refused });
    }
    tell_short(rt, names, lengths, survey);
    Ok(())
}

/// What a status has to tell beside its lines.
pub fn tell_look<R: Eprint>(
    rt: &R,
    alloc: Global,
    names: &[String],
    command: &[String],
    lengths: &[u64],
    survey: &Survey,
) {
    tell_survey(rt, alloc, names, command, survey, DeviceSet::empty());
    tell_short(rt, names, lengths, survey);
    tell_status(rt, alloc, names, survey);
}

fn makes_pool(served: ServedCommand) -> bool {
    match served {
        ServedCommand::Create(_) => true,
        _ => false,
    }
}

/// Which images end before the pool does that they show.
fn tell_short<R: Eprint>(rt: &R, names: &[String], lengths: &[u64], seen: &Survey) {
    if let Some(uber) = uber_of(seen) {
        let reflow = uber.reflow();
        let sectors = reflow.rows.saturating_add(FIRST_DATA_SECTOR);
        note_short(rt, names, lengths, reflow.to, sectors);
    }
}

/// An uberblock of the pool that the images show.
fn uber_of(seen: &Survey) -> Option<Uber> {
    match &seen.pool {
        Pool::Chosen(known) | Pool::Likely(known) => Some(known.uber),
        Pool::Untold => greatest(&seen.sightings.list, None),
    }
}
