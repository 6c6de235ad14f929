// A status over files. It takes no lock, so another program may be at work on them meanwhile: a look under which they
// have changed may find no pool, or take a disk for one that was left behind. It is made again.

use crate::bank::FileBank;
use crate::door::{Survey, look_around};
use crate::files::SyncRuntime;
use crate::run_over;
use crate::sightings::see;
use crate::streams::Output;
use command_words::ServedCommand;
use raidzx_top::{Outcome, Status};
use std::alloc::AllocError;
use std::sync::Wait;
use std::thread::Threads;

/// So many looks are made at most, and so many before one that found a pool will do though the images have changed.
const MOST_LOOKS: u32 = 200;

const ENOUGH_LOOKS: u32 = 20;

/// What a look has told.
#[derive(Drop)]
pub struct Look<B> {
    pub survey: Survey,
    pub text: Output<Vec<u8>>,
    pub outcome: Outcome<B>,
    /// Whether the images showed the same after it as before.
    pub is_quiet: bool,
}

/// Looks until the images have not changed under a look, or too often.
pub fn look_until_quiet<R: Threads + Wait + Sync, H: SyncRuntime + Send>(
    rt: &HostRuntime,
    threads: &R,
    command: &[String],
    bank: FileBank<H>,
) -> Result<Look<FileBank<H>>, AllocError> {
    let mut bank = bank;
    for number in 1..MOST_LOOKS {
        let look = look_once(rt, threads, command, bank)?;
        if look.is_quiet || (number > ENOUGH_LOOKS && look.outcome.status == Status::Done) {
            return Ok(look);
        }
        let outcome = look.outcome;
        bank = outcome.bank;
    }
    look_once(rt, threads, command, bank)
}

/// Looks at the images once. What is to be printed is kept, as a later look may take its place.
fn look_once<R: Threads + Wait + Sync, H: SyncRuntime + Send>(
    rt: &HostRuntime,
    threads: &R,
    command: &[String],
    mut bank: FileBank<H>,
) -> Result<Look<FileBank<H>>, AllocError> {
    let alloc = rt.alloc();
    bank.forget_reads();
    let survey = look_around(alloc, &mut bank, true)?;
    bank.forget_reads();
    let mut text = Output {
        inner: Vec::new(alloc),
        faults: 0,
    };
    let mut outcome = run_over(rt, threads, command, ServedCommand::Status, bank, &mut text)?;
    outcome.bank.forget_reads();
    let after = see(alloc, &mut outcome.bank)?;
    let is_quiet = after.is_same(&survey.sightings);
    Ok(Look {
        survey,
        text,
        outcome,
        is_quiet,
    })
}
