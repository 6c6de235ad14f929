// Two that go on beside each other, a copy and a client or two clients, held up by a gate until each has seen the
// other.
use crate::calls::{REPLAY, RUN, RUN_AND_ATTACH, Told, call, call_held_up};
use bank_mem::MemBank;
use bank_trait::{Gate, Point};
use client_script::COPIER;
use raidzx_top::Status;
use std::alloc::Global;
use std::process::Abort;
use std::sync::{Mutex, Wait};
use std::test::Fail;
use std::thread::{Threads, yield_now};
use test_pools::banks::{bank_of_nine, bank_of_nine_and_a_blank};
use test_pools::plans::pattern;

/// How often whoever is held up looks for the other before it gives up: some seconds, as a test has a minute.
const LOOKS: u64 = 10_000_000;

/// Blocks of one sector, with the parity two sectors each, so that the last stands behind what is filled first.
const BLOCKS: u64 = 65;

/// Where one of the two waits: the point, and how many of its calls are answered then.
#[derive(Clone, Copy, Debug, PartialEq, Eq)]
struct Place {
    point: Point,
    answered: u64,
}

/// The other one waits between the first turns of its first call, until the first is kept.
const FIRST_TURNS: Place = Place {
    point: Point::Turn,
    answered: 0,
};

/// Who is kept, and where, until all calls of the other are answered.
#[derive(Clone, Copy, Debug, PartialEq, Eq)]
struct Keeping {
    actor: u8,
    place: Place,
    /// How many calls it makes, and how many the other.
    calls: u64,
    other_calls: u64,
}

/// The copy is kept between its first turns, until the client's only call is answered.
const COPY_IS_KEPT: Keeping = Keeping {
    actor: COPIER,
    place: Place {
        point: Point::Turn,
        answered: 1,
    },
    calls: 2,
    other_calls: 1,
};

/// What one of them has come to.
#[derive(Clone, Copy, Debug, PartialEq, Eq)]
struct Passed {
    /// It has been where it waits.
    has_come: bool,
    /// How many of its calls were told to be answered.
    answered: u64,
}

impl Passed {
    /// Notes a pass, and tells whether it has come to its place by it.
    fn note(&mut self, place: Place, point: Point) -> bool {
        if point == Point::CallDone {
            self.answered = self.answered.wrapping_add(1);
        }
        let answered = self.answered;
        let comes = !self.has_come && Place { point, answered } == place;
        self.has_come = self.has_come || comes;
        comes
    }
}

/// What the two have come to.
#[derive(Clone, Copy, Debug, PartialEq, Eq)]
struct Seen {
    kept: Passed,
    other: Passed,
    /// One of them was held up for too long.
    gave_up: bool,
}

/// What one of them waits for.
#[derive(Clone, Copy, Debug, PartialEq, Eq)]
enum Awaited {
    Keeping,
    Answers,
}

impl Seen {
    /// What is seen where both have been where they wait, or neither, and so many calls are answered.
    fn both(have_come: bool, calls: u64, other_calls: u64) -> Seen {
        let [kept, other] = [calls, other_calls].map(|answered| Passed {
            has_come: have_come,
            answered,
        });
        Seen {
            kept,
            other,
            gave_up: false,
        }
    }

    /// Notes a pass, and tells what is to be waited for.
    fn note(&mut self, keeping: &Keeping, actor: u8, point: Point) -> Option<Awaited> {
        if actor == keeping.actor {
            if self.kept.note(keeping.place, point) {
                return Some(Awaited::Answers);
            }
        } else if self.other.note(FIRST_TURNS, point) {
            return Some(Awaited::Keeping);
        }
        None
    }

    fn has(&self, keeping: &Keeping, awaited: Awaited) -> bool {
        match awaited {
            Awaited::Keeping => self.kept.has_come,
            Awaited::Answers => self.other.answered == keeping.other_calls,
        }
    }
}

/// A gate that keeps each of the two until it has seen the other.
#[derive(Drop)]
struct MutualGate {
    keeping: Keeping,
    seen: Mutex<Seen>,
}

impl MutualGate {
    fn wait_for<R: Wait>(&self, rt: &R, awaited: Awaited) {
        for _look in 0..LOOKS {
            if self.seen.lock(rt).has(&self.keeping, awaited) {
                return;
            }
            yield_now();
        }
        self.seen.lock(rt).gave_up = true;
    }
}

impl Gate for MutualGate {
    fn pass<R: Wait>(&self, rt: &R, actor: u8, point: Point) {
        let awaited = self.seen.lock(rt).note(&self.keeping, actor, point);
        if let Some(awaited) = awaited {
            self.wait_for(rt, awaited);
        }
    }
}

/// Pool 9 on three devices, with a blank one, that holds the blocks.
fn bank_with_blocks<R: Threads + Wait + Sync>(rt: &R, alloc: Global) -> Result<MemBank, Fail> {
    let mut script = String::from_str(alloc, "clients 1\n")?;
    for id in 0..BLOCKS {
        write!(script, "a put {id} 512 {id}\n")?;
    }
    script.push_str("a sync\n")?;
    let bank = bank_of_nine_and_a_blank(alloc)?;
    let told = call(rt, alloc, RUN, bank, script.as_bytes())?;
    Ok(told.bank)
}

/// What ends the answer of a get of 512 bytes of this pattern.
fn bytes_told(alloc: Global, seed: u64) -> Result<String, Fail> {
    let mut told = String::from_str(alloc, " bytes ")?;
    for byte in &pattern(alloc, 512, seed)? {
        write!(told, "{byte:02x}")?;
    }
    told.push_str("\n")?;
    Ok(told)
}

/// Whether a text begins so, and goes on with a number of one digit and then these bytes.
fn is_read(text: &[u8], start: &[u8], told: &str) -> bool {
    match text.strip_prefix(start) {
        Some(rest) => rest.len() > 1 && rest[1..].starts_with(told.as_bytes()),
        None => false,
    }
}

/// Carries out these words over a bank and a script, and holds up the two until each has seen the other.
fn run_held_up<R: Abort + Threads + Wait + Sync>(
    rt: &R,
    alloc: Global,
    keeping: Keeping,
    words: &str,
    bank: MemBank,
    script: &[u8],
) -> Result<Told, Fail> {
    let gate = MutualGate {
        keeping,
        seen: Mutex::new(Seen::both(false, 0, 0)),
    };
    let told = call_held_up(rt, alloc, &gate, words, bank, script)?;
    let all = Seen::both(true, keeping.calls, keeping.other_calls);
    assert_eq!(rt; gate.seen.into_inner(), all);
    assert_eq!(rt; told.status, Status::Done);
    Ok(told)
}

/// Runs this script while the pool is widened, and holds up its client until the copy has begun, and the copy until the
/// client is answered.
fn widen_held_up<R: Abort + Threads + Wait + Sync>(
    rt: &R,
    alloc: Global,
    script: &[u8],
) -> Result<Told, Fail> {
    let bank = bank_with_blocks(rt, alloc)?;
    run_held_up(rt, alloc, COPY_IS_KEPT, RUN_AND_ATTACH, bank, script)
}

const READ: &[u8] = b"clients 1\na get 64\n";

/// The device is attached, then the client is answered, then the copy ends a first group.
const GET_AMID: &[u8] = b"0 group 6 after 0
1 group 7 after 1
2 x.1 attach width 4 group 7
3 a.1 get 64 at ";

const PUT_AMID: &[u8] = b"0 group 6 after 0
1 group 7 after 1
2 x.1 attach width 4 group 7
3 a.1 put 64 ok
4 group 8 after 4
";

#[test]
fn copy_and_get_interleave(rt: HostRuntime) -> Result<(), Fail> {
    let alloc = rt.alloc();
    let told = widen_held_up(&rt, alloc, READ)?;
    let bytes = bytes_told(alloc, 64)?;
    assert!(rt; is_read(told.text.as_slice(), GET_AMID, bytes.as_str()));
    Ok(())
}

#[test]
fn copy_and_put_interleave(rt: HostRuntime) -> Result<(), Fail> {
    let alloc = rt.alloc();
    let told = widen_held_up(&rt, alloc, b"clients 1\na put 64 512 0\n")?;
    assert!(rt; told.text.as_slice().starts_with(PUT_AMID));
    let told = call(&rt, alloc, REPLAY, told.bank, READ)?;
    let bytes = bytes_told(alloc, 0)?;
    assert!(rt; told.text.as_slice().ends_with(bytes.as_bytes()));
    Ok(())
}

/// Each client puts a block, reads it and syncs. The first client's has a column on each device.
const TWO_CLIENTS: &[u8] = b"clients 2
a put 7 1000 5
a sum 7
a sync
b puthex 8 616263
b get 8
b sync
";

/// The first client is kept in the midst of its put.
const AMID_A_CALL: &[u8] = b"0 group 3 after 0
1 b.1 put 8 ok
2 b.2 get 8 at 2 bytes 616263
3 group 4 after 3
4 b.3 sync group 4
5 a.1 put 7 ok
6 a.2 sum 7 at 6 length 1000 sha 18249577807d9788926ea4deef2c0c38ddd276c1419f2e5fcb76b7cee66a0b09
7 group 5 after 7
8 a.3 sync group 5
";

/// It is kept once its put is answered. Its read has begun then, and answers the map of that moment.
const BEHIND_A_CALL: &[u8] = b"0 group 3 after 0
1 a.1 put 7 ok
2 b.1 put 8 ok
3 b.2 get 8 at 3 bytes 616263
4 group 4 after 4
5 b.3 sync group 4
6 a.2 sum 7 at 2 length 1000 sha 18249577807d9788926ea4deef2c0c38ddd276c1419f2e5fcb76b7cee66a0b09
7 group 5 after 7
8 a.3 sync group 5
";

#[test]
fn a_client_is_answered_while_another_is_kept_between_its_turns(
    rt: HostRuntime,
) -> Result<(), Fail> {
    let alloc = rt.alloc();
    for (point, answered, text) in [
        (Point::Turn, 0, AMID_A_CALL),
        (Point::CallDone, 1, BEHIND_A_CALL),
    ] {
        let keeping = Keeping {
            actor: 0,
            place: Place { point, answered },
            calls: 3,
            other_calls: 3,
        };
        let told = run_held_up(&rt, alloc, keeping, RUN, bank_of_nine(alloc)?, TWO_CLIENTS)?;
        assert_eq!(rt; told.text.as_slice(), text, "kept behind {answered}");
    }
    Ok(())
}
