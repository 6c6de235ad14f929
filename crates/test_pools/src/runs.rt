// Runs and replays on banks in memory, and what they say.
ghost use Rattle.std.specs.Prelude.{◌≡◌, []};

use bank_mem::{MemBank, MemSink};
use client_script::{parse, print_journal};
use core_open::OpenWhy;
use core_state::Journal;
use schedule::{Ended, Ran, run_pool};
use std::alloc::Global;
use std::mem::replace;
use std::test::Fail;
use uberblock_ring::DeviceSet;

/// How a script was carried out: its calls whole, or first the turns that it lists.
#[derive(Clone, Copy, Debug, PartialEq, Eq)]
pub enum Order {
    OfLines,
    AsListed,
}

/// How a run ended, and its journal as text.
#[derive(Drop)]
pub struct Told {
    pub ended: Result<Ran, OpenWhy>,
    pub text: MemSink,
}

impl Told {
    /// The devices that are out, where each call was answered.
    pub fn out(&self) -> Option<DeviceSet> {
        match &self.ended {
            Ok(ran) => if ran.ended == Ended::Whole {
                Some(ran.out)
            } else {
                None
            },
            Err(_) => None,
        }
    }
}

/// How a run ends that answers each call, in so many turns, while these devices are out.
pub fn finished(turns: u64, out: DeviceSet) -> Result<Ran, OpenWhy> {
    Ok(Ran {
        ended: Ended::Whole,
        turns,
        out,
    })
}

/// Carries out the script of this text, and lists what is answered in a journal of no items.
pub fn run_into(
    alloc: Global,
    bank: &mut MemBank,
    script: &[u8],
    order: Order,
    journal: &mut Journal,
) -> Result<Result<Ran, OpenWhy>, Fail>
    requires empty { journal.old.items ≡ [] }
{
    let script = parse(alloc, script)?;
    journal.reserve(1)?;
    let listed = match order {
        Order::OfLines => &[],
        Order::AsListed => script.order(),
    };
    let begun = replace(bank, MemBank::new(alloc, 1, 1)?);
    let empty = replace(journal, Journal::new(alloc));
    let run = run_pool(alloc, begun, &script, listed, empty);
    *bank = run.bank;
    *journal = run.journal;
    Ok(run.ran)
}

fn tell(alloc: Global, bank: &mut MemBank, script: &[u8], order: Order) -> Result<Told, Fail> {
    let mut journal = Journal::new(alloc);
    let ended = run_into(alloc, bank, script, order, &mut journal)?;
    let mut text = MemSink::with_room(alloc, 1 << 20, &[])?;
    print_journal(&journal, &mut text)?;
    Ok(Told { ended, text })
}

/// Carries out the script of this text, each call whole, in the order of their lines.
pub fn run(alloc: Global, bank: &mut MemBank, script: &[u8]) -> Result<Told, Fail> {
    tell(alloc, bank, script, Order::OfLines)
}

/// Carries out the script of this text, first the turns that it lists.
pub fn replay(alloc: Global, bank: &mut MemBank, script: &[u8]) -> Result<Told, Fail> {
    tell(alloc, bank, script, Order::AsListed)
}
