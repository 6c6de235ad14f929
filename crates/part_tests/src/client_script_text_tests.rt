// Worked rows of texts.
ghost use Rattle.std.specs.Prelude.{None};

use bank_trait::{Failed, Sink};
use client_script::{TextWriter, print_journal, write_all};
use core_state::{Answer, Bytes, Entry, Group, Ids, Item, Journal, Kind};
use std::alloc::{AllocError, Global};
use std::test::Fail;

// Keeps what it is given, at most `most` bytes a call, and fails once it has `room` bytes.
#[derive(Drop)]
struct Page {
    bytes: Vec<u8>,
    most: usize,
    room: usize,
    writes: u64,
    faults: u64,
}

impl Page {
    fn new(alloc: Global, most: usize, room: usize) -> Page {
        Page {
            bytes: Vec::new(alloc),
            most,
            room,
            writes: 0,
            faults: 0,
        }
    }
}

impl Sink for Page {
    ghost held = { λ page. None };

    ghost faults = { λ page. page.faults };

    fn write(&mut self, piece: &[u8]) -> Result<usize, Failed> {
        let len = piece.len().min(self.most.max(1));
        self.writes = self.writes.saturating_add(1);
        if self.bytes.len() >= self.room {
            self.faults = self.faults.saturating_add(1);
            return Err(Failed);
        }
        if self.bytes.extend_from_slice(&piece[..len]).is_err() {
            self.faults = self.faults.saturating_add(1);
            return Err(Failed);
        }
        Ok(len)
    }
}

fn add(journal: &mut Journal, item: Item) -> Result<(), AllocError> {
    journal.reserve(1)?;
    journal.list(item);
    Ok(())
}

fn each_answer(alloc: Global) -> Result<Journal, AllocError> {
    let bytes = Bytes::new(alloc, Vec::from_slice(alloc, b"abc\xff")?)?;
    let two = Ids::new(Vec::from_slice(alloc, &[3, 18_446_744_073_709_551_615])?);
    let none = Ids::new(Vec::new(alloc));
    let sha = [0xa0; 32];
    let first = Group {
        group: 3,
        after: 0,
        from: 3,
        to: 4,
    };
    let mut journal = Journal::new(alloc);
    add(&mut journal, Item::Group(first))?;
    for (caller, kind, id, at, answer) in [
        (0, Kind::Put, Some(7), None, Answer::Stored),
        (7, Kind::Get, Some(7), Some(2), Answer::Read { bytes }),
        (
            0,
            Kind::Sum,
            Some(7),
            Some(3),
            Answer::Digest { len: 4, sha },
        ),
        (0, Kind::Free, Some(7), None, Answer::Freed),
        (0, Kind::Sync, None, None, Answer::Synced { group: 4 }),
        (
            0,
            Kind::Attach,
            None,
            None,
            Answer::Attached { width: 4, group: 5 },
        ),
        (8, Kind::Copy, None, None, Answer::Completed { width: 4 }),
        (
            9,
            Kind::Scrub,
            None,
            None,
            Answer::Scrubbed {
                blocks: 2,
                repaired: 1,
                damaged: two,
            },
        ),
        (
            9,
            Kind::Scrub,
            None,
            None,
            Answer::Scrubbed {
                blocks: 0,
                repaired: 0,
                damaged: none,
            },
        ),
        (0, Kind::Get, Some(5), Some(1), Answer::Absent),
        (0, Kind::Put, Some(1), None, Answer::NoSpace { sectors: 9 }),
        (0, Kind::Put, Some(1), None, Answer::Full),
        (0, Kind::Sum, Some(1), Some(0), Answer::Damaged),
        (0, Kind::Attach, None, None, Answer::Expanding { to: 5 }),
        (0, Kind::Attach, None, None, Answer::DeviceOut { device: 2 }),
        (
            0,
            Kind::Attach,
            None,
            None,
            Answer::NoDevice {
                devices: 3,
                width: 4,
            },
        ),
        (
            0,
            Kind::Attach,
            None,
            None,
            Answer::NewDeviceFailed { device: 3 },
        ),
        (0, Kind::Attach, None, None, Answer::Taken { slot: 4 }),
        (0, Kind::Copy, None, None, Answer::Paused { device: 1 }),
        (
            0,
            Kind::Put,
            Some(3),
            None,
            Answer::TooManyFailed { out: 13 },
        ),
        (0, Kind::Sync, None, None, Answer::Limit { reached: 9 }),
        (0, Kind::Get, Some(3), None, Answer::NoMemory),
    ] {
        let entry = Entry {
            caller,
            call: 1,
            kind,
            id,
            at,
            answer,
        };
        add(&mut journal, Item::Call(entry))?;
    }
    Ok(journal)
}

const EACH_ANSWER: &[u8] = b"0 group 3 after 0
1 a.1 put 7 ok
2 h.1 get 7 at 2 bytes 616263ff
3 a.1 sum 7 at 3 length 4 sha a0a0a0a0a0a0a0a0a0a0a0a0a0a0a0a0a0a0a0a0a0a0a0a0a0a0a0a0a0a0a0a0
4 a.1 free 7 ok
5 a.1 sync group 4
6 a.1 attach width 4 group 5
7 x.1 copy done width 4
8 z.1 scrub blocks 2 repaired 1 damaged 3 18446744073709551615
9 z.1 scrub blocks 0 repaired 0 damaged none
10 a.1 get 5 at 1 absent
11 a.1 put 1 no space 9
12 a.1 put 1 full
13 a.1 sum 1 at 0 damaged
14 a.1 attach expanding to 5
15 a.1 attach device out 2
16 a.1 attach no device 4
17 a.1 attach new device failed 3
18 a.1 attach taken 4
19 a.1 copy paused 1
20 a.1 put 3 too many failed 0 2 3
21 a.1 sync limit
22 a.1 get 3 no memory
";

#[test]
fn each_answer_has_its_line(rt: HostRuntime) -> Result<(), Fail> {
    let alloc = rt.alloc();
    let journal = each_answer(alloc)?;
    let mut page = Page::new(alloc, 100, usize::MAX);
    assert_eq!(rt; print_journal(&journal, &mut page), Ok(()));
    assert_eq!(rt; page.bytes.as_slice(), EACH_ANSWER);
    Ok(())
}

#[test]
fn a_failed_write_ends_the_text(rt: HostRuntime) -> Result<(), Fail> {
    let alloc = rt.alloc();
    let journal = each_answer(alloc)?;
    let mut page = Page::new(alloc, 100, 250);
    assert_eq!(rt; print_journal(&journal, &mut page), Err(Failed));
    assert_eq!(rt; page.bytes.as_slice(), &EACH_ANSWER[..300]);
    assert_eq!(rt; page.faults, 1);
    assert_eq!(rt; write_all(&mut page, b"more"), Err(Failed));
    Ok(())
}

#[test]
fn long_texts_go_out_in_pieces_of_more_than_4_kib(rt: HostRuntime) -> Result<(), Fail> {
    let alloc = rt.alloc();
    let bytes = vec![in alloc; 0xc3; 65_536]?;
    let mut page = Page::new(alloc, usize::MAX, usize::MAX);
    let mut writer = TextWriter::new();
    writer.text(&mut page, b"hex ");
    writer.hex(&mut page, bytes.as_slice());
    writer.devices(&mut page, 1 << 63);
    assert_eq!(rt; writer.finish(&mut page), Ok(()));
    assert_eq!(rt; page.bytes.len(), 4 + 2 * 65_536 + 3);
    assert!(rt; page.writes <= 131_079 / 4096);
    let mut writer = TextWriter::new();
    writer.text(&mut page, bytes.as_slice());
    writer.number(&mut page, 0);
    assert_eq!(rt; writer.finish(&mut page), Ok(()));
    assert_eq!(rt; page.bytes.len(), 131_079 + 65_537);
    Ok(())
}
