//! The program: `raidzx IMAGE.. -- COMMAND ..`.
#![tactic(auto)]

ghost use Rattle.std.specs.Prelude.{◌≡◌, ◌+◌, ◌<◌, ◌≤◌, ◌^◌, length, IfOk};
ghost use Rattle.file_bank.specs.FileBank.{disk_of};
ghost use Rattle.raidzx.specs.Images.{device_contents};

mod after;
mod bank;
mod door;
mod door_notes;
mod entry;
mod files;
mod help;
mod hints;
mod lives;
mod looks;
mod notes;
mod opening;
mod order;
mod pace;
mod places;
mod room;
mod script;
mod seen;
mod sightings;
mod standing;
mod streams;
mod told;
mod undone;
mod usage;

use after::tell_files;
use bank::{DeviceFile, FileBank, bank_over, device_file};
use bank_mem::MemBank;
use bank_trait::{Bank, Sink};
use command_words::{NoCommand, ServedCommand, read_command};
use entry::{look_first, tell_look};
use files::SyncRuntime;
use help::show_answer;
use hints::{hint_limit, hint_line};
use looks::look_until_quiet;
use notes::{note_busy, note_failed_calls, note_unopened};
use opening::{Access, Unopened, access_for, open_image};
use pace::Pace;
use pool_live::OpenGate;
use raidzx_top::{Outcome, Status, TOO_MANY_FAILED, image_words, raidzx, write_status};
use script::ScriptBytes;
use std::alloc::{AllocError, AllocFailed, Global};
use std::env;
use std::io::{self, ErrorKind, Printer, Write};
use std::process::ExitCode;
use std::sync::{Arc, Wait};
use std::thread::Threads;
use streams::{Output, hold_standard_streams};
use usage::hint_usage;

/// Why there is no bank over files.
enum NoBank {
    /// Another program has this image, or this one is refused it.
    Refused { device: u32 },
    NoMemory,
}

impl<T: Drop> From<AllocFailed<T>> for NoBank {
    ghost use Rattle.raidzx.specs.declared.NoBank.TheVariants.{NoMemory};
    ghost use Rattle.std.specs.Prelude.{◌≡◌};

    ghost from_gives = { λ _ why. why ≡ NoMemory };

    fn from(_: AllocFailed<T>) -> NoBank {
        NoBank::NoMemory
    }
}

impl From<AllocError> for NoBank {
    ghost use Rattle.raidzx.specs.declared.NoBank.TheVariants.{NoMemory};
    ghost use Rattle.std.specs.Prelude.{◌≡◌};

    ghost from_gives = { λ _ why. why ≡ NoMemory };

    fn from(_: AllocError) -> NoBank {
        NoBank::NoMemory
    }
}

/// The bank of images that were opened, and how many sectors each has: 0 where it could not be opened.
#[derive(Drop)]
struct Opened<B> {
    bank: B,
    lengths: Vec<u64>,
}

/// Opens the image of a device, and tells why it could not be opened. Gives its file, and how many sectors it has.
fn open_device<H: SyncRuntime>(
    rt: &HostRuntime,
    host: H,
    pace: &Arc<Pace>,
    name: &str,
    device: u32,
    access: Access,
) -> Result<(Option<DeviceFile<H>>, u64), NoBank> {
    match open_image(rt, name, access) {
        Ok(image) => {
            let sectors = image.sectors();
            let file = device_file(host, rt.alloc(), image, pace)?;
            Ok((Some(file), sectors))
        }
        Err(why) => {
            note_unopened(rt, name, &why);
            match why {
                Unopened::Failed(_) => Ok((None, 0)),
                _ => Err(NoBank::Refused { device }),
            }
        }
    }
}

/// Opens the files that the words from the second on name, so many of them, in this order, and tells why one could not
/// be opened. At the first one that another program has, or that this one is refused, it stops: of two programs that
/// want to change the same images one gets them all.
fn open_files<H: SyncRuntime + Copy>(
    rt: &HostRuntime,
    host: H,
    words: &[String],
    count: u32,
    access: Access,
) -> Result<Opened<FileBank<H>>, NoBank>
    requires { count + 1 < length words.now }
    ensures devices { IfOk result (λ opened. (disk_of device_contents opened.bank).devices ≡ count) }
{
    let alloc = rt.alloc();
    let pace = Arc::new(alloc, Pace::new())?;
    let mut files = Vec::new(alloc);
    let mut faults = Vec::new(alloc);
    let mut lengths = Vec::new(alloc);
    for device in 0..count {
        let name = words[device as usize + 1].as_str();
        let (file, sectors) = open_device(rt, host, &pace, name, device, access)?;
        files.push(file)?;
        lengths.push(sectors)?;
        faults.push(0)?;
    }
    Ok(Opened {
        bank: bank_over(files, faults),
        lengths,
    })
}

/// The script of a command. One that takes none reads nothing of standard input.
fn script_for(rt: &HostRuntime, served: ServedCommand) -> Result<ScriptBytes, AllocError> {
    match served {
        ServedCommand::Run { attaches: _ } | ServedCommand::Replay => {
            ScriptBytes::read(rt.alloc(), &mut rt.reader())
        }
        ServedCommand::Create(_) | ServedCommand::Status => Ok(ScriptBytes::none(rt.alloc())),
    }
}

/// Carries out the command over a bank, with threads of this handle, and tells why a script is refused. Where there is
/// no memory for the script nothing is done.
fn run_over<R: Threads + Wait + Sync, B: Bank + Drop + Send, K: Sink>(
    rt: &HostRuntime,
    threads: &R,
    words: &[String],
    served: ServedCommand,
    bank: B,
    out: &mut K,
) -> Result<Outcome<B>, AllocError> {
    let mut script = script_for(rt, served)?;
    let outcome = raidzx(
        threads,
        rt.alloc(),
        words,
        bank,
        &mut script,
        out,
        &OpenGate,
    );
    match outcome.status {
        Status::ScriptFault { line, why } => hint_line(rt, line, why),
        Status::Limit if outcome.journal.is_empty() => hint_limit(rt),
        _ => {}
    }
    Ok(outcome)
}

/// Standard output.
fn output(rt: &HostRuntime) -> Output<Printer<'_, HostRuntime>> {
    Output {
        inner: io::writer(rt),
        faults: 0,
    }
}

/// Carries out a command that changes files, if it is let in, and tells what a user has to know.
fn serve_files<R: Threads + Wait + Sync, H: SyncRuntime + Send>(
    rt: &HostRuntime,
    threads: &R,
    names: &[String],
    command: &[String],
    served: ServedCommand,
    opened: Opened<FileBank<H>>,
) -> ExitCode {
    let alloc = rt.alloc();
    let lengths = opened.lengths;
    let mut bank = opened.bank;
    if let Err(status) = look_first(rt, alloc, names, command, served, &lengths, &mut bank) {
        return end(rt, status);
    }
    bank.forget_reads();
    let Ok(mut outcome) = run_over(rt, threads, command, served, bank, &mut output(rt)) else {
        return end(rt, Status::NoMemory);
    };
    outcome.bank.finish();
    let code = outcome.status.code();
    tell_files(rt, alloc, names, command, &lengths, outcome);
    ExitCode::from(code)
}

/// Looks at files, and tells what they show.
fn serve_look<R: Threads + Wait + Sync, H: SyncRuntime + Send>(
    rt: &HostRuntime,
    threads: &R,
    names: &[String],
    command: &[String],
    opened: Opened<FileBank<H>>,
) -> ExitCode {
    let Ok(look) = look_until_quiet(rt, threads, command, opened.bank) else {
        return end(rt, Status::NoMemory);
    };
    if look.is_quiet {
        tell_look(
            rt,
            rt.alloc(),
            names,
            command,
            &opened.lengths,
            &look.survey,
        );
    } else {
        note_busy(rt);
    }
    if look.text.faults > 0 {
        return end(rt, Status::NoMemory);
    }
    let code = match io::writer(rt).write_all(&look.text.inner) {
        Ok(()) => look.outcome.status.code(),
        Err(_) => Status::SinkFault.code(),
    };
    note_failed_calls(rt, names, &opened.lengths, &look.outcome.bank);
    ExitCode::from(code)
}

/// Ends the program before there is a bank.
fn end(rt: &HostRuntime, status: Status) -> ExitCode {
    let _ = write_status(&mut output(rt), &status);
    ExitCode::from(status.code())
}

/// Ends the program where the words are no command, and tells the form of one, or answers who asks for help.
fn end_misused(rt: &HostRuntime, words: &[String], why: &NoCommand) -> ExitCode {
    match why {
        NoCommand::Asked(answer) => match show_answer(rt, rt.alloc(), answer) {
            Ok(()) => end(rt, Status::Usage),
            Err(AllocError) => end(rt, Status::NoMemory),
        },
        NoCommand::Misspelled => {
            hint_usage(rt, words);
            end(rt, Status::Usage)
        }
        NoCommand::NoMemory => end(rt, Status::NoMemory),
    }
}

/// Ends the program where the words name no images. Who asks for help names none.
fn end_without_images(rt: &HostRuntime, words: &[String]) -> ExitCode {
    match read_command(rt.alloc(), words) {
        Ok(_) => end_misused(rt, words, &NoCommand::Misspelled),
        Err(why) => end_misused(rt, words, &why),
    }
}

/// Ends the program where this image refuses the run. Its number may be one that no set of devices has.
fn end_refused(rt: &HostRuntime, device: u32) -> ExitCode {
    let _ = println!(rt; "too many failed {device}");
    ExitCode::from(TOO_MANY_FAILED)
}

fn main(rt: HostRuntime) -> ExitCode {
    let _held = hold_standard_streams(&rt);
    let arguments = match env::args(&rt) {
        Ok(arguments) => arguments,
        Err(why) if why.kind() == ErrorKind::OutOfMemory => return end(&rt, Status::NoMemory),
        Err(_) => return end_misused(&rt, &[], &NoCommand::Misspelled),
    };
    let Ok(words) = arguments.collect::<Vec<String>>(rt.alloc()) else {
        return end(&rt, Status::NoMemory);
    };
    let Some(images) = image_words(&words) else {
        return end_without_images(&rt, &words);
    };
    let command = &words[images.count + 1..];
    let served = match read_command(rt.alloc(), command) {
        Ok(served) => served,
        Err(why) => return end_misused(&rt, &words, &why),
    };
    let Ok(count) = u32::try_from(images.count) else {
        return end(&rt, Status::NoMemory);
    };
    match images.memory {
        Some(sectors) => match MemBank::new(rt.alloc(), count, sectors) {
            Ok(bank) => match run_over(&rt, &rt, command, served, bank, &mut output(&rt)) {
                Ok(outcome) => ExitCode::from(outcome.status.code()),
                Err(AllocError) => end(&rt, Status::NoMemory),
            },
            Err(_) => end(&rt, Status::NoMemory),
        },
        None => {
            let names = &words[1..images.count + 1];
            let access = access_for(served);
            match (open_files(&rt, &rt, &words, count, access), access) {
                (Ok(opened), Access::Look) => serve_look(&rt, &rt, names, command, opened),
                (Ok(opened), Access::Change) => {
                    serve_files(&rt, &rt, names, command, served, opened)
                }
                (Err(NoBank::Refused { device }), _) => end_refused(&rt, device),
                (Err(NoBank::NoMemory), _) => end(&rt, Status::NoMemory),
            }
        }
    }
}
