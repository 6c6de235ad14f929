// Worked rows of scripts.
ghost use Rattle.std.specs.Prelude.{None};

use bank_trait::{Failed, Source};
use client_script::{
    CallFault, Fill, LineFault, ParseRefused, ReadRefused, ScriptCall, parse, read_script,
};
use core_state::Kind;
use std::alloc::Global;
use std::test::Fail;

// Hands over bytes, at most `most` a call; the read of this number, from 1, fails.
#[derive(Drop)]
struct Tape<'a> {
    rest: &'a [u8],
    most: usize,
    fails: u64,
    reads: u64,
    faults: u64,
}

impl<'a> Tape<'a> {
    fn new(rest: &'a [u8], most: usize, fails: u64) -> Tape<'a> {
        Tape {
            rest,
            most,
            fails,
            reads: 0,
            faults: 0,
        }
    }
}

impl<'a> Source for Tape<'a> {
    ghost left = { λ tape. None };

    ghost faults = { λ tape. tape.faults };

    ghost reads = { λ tape. tape.reads };

    fn read(&mut self, into: &mut [u8]) -> Result<usize, Failed> {
        self.reads = self.reads.saturating_add(1);
        if self.reads == self.fails {
            self.faults = self.faults.saturating_add(1);
            return Err(Failed);
        }
        let len = into.len().min(self.most).min(self.rest.len());
        into[..len].copy_from_slice(&self.rest[..len]);
        self.rest = &self.rest[len..];
        Ok(len)
    }
}

fn refusal(alloc: Global, bytes: &[u8]) -> Option<ParseRefused> {
    match parse(alloc, bytes) {
        Ok(_) => None,
        Err(refused) => Some(refused),
    }
}

fn fault(line: u64, why: LineFault) -> Option<ParseRefused> {
    Some(ParseRefused::ScriptFault { line, why })
}

fn fault_in_call(line: u64, why: CallFault) -> Option<ParseRefused> {
    fault(line, LineFault::InCall { why })
}

fn limit(reached: u64) -> Option<ParseRefused> {
    Some(ParseRefused::Limit { reached })
}

#[test]
fn the_first_line_that_breaks_a_rule_decides(rt: HostRuntime) {
    let alloc = rt.alloc();
    let rows: [(&[u8], Option<ParseRefused>); 45] = [
        (b"", fault(1, LineFault::NoClients)),
        (b"\n", fault(2, LineFault::NoClients)),
        (b"# only this", fault(2, LineFault::NoClients)),
        (b"\n# one\n\n", fault(4, LineFault::NoClients)),
        (b"a sync\n", fault(1, LineFault::NoClients)),
        (
            b"clients 1\na put 1 0 5\n",
            fault_in_call(2, CallFault::NoBytes),
        ),
        (b"clients 9\n", limit(9)),
        (b"# nine\nclients 18446744073709551617\n", limit(9)),
        (
            b"clients 100000000000000000000000000000000000000000000000000000000000000000000\n",
            limit(9),
        ),
        (b"clients 0\n", fault(1, LineFault::ClientCount)),
        (b"clients 01\n", fault(1, LineFault::ClientCount)),
        (b"clients +1\n", fault(1, LineFault::ClientCount)),
        (b"clients 1\nclients 9\n", fault(2, LineFault::ClientsAgain)),
        (b"clients 1 \n", fault(1, LineFault::StraySpace)),
        (b"clients 1\r\n", fault(1, LineFault::CarriageReturn)),
        (
            b"clients 2\nc sync\n",
            fault(2, LineFault::NoSuchClient { clients: 2 }),
        ),
        (b"clients 8\nh sync", None),
        (b"clients 1\na put 1 65536 18446744073709551615", None),
        (
            b"clients 1\na put 1 65537 5\n",
            fault_in_call(2, CallFault::TooManyBytes),
        ),
        (
            b"clients 1\na put 1 5 18446744073709551616\n",
            fault_in_call(2, CallFault::Number),
        ),
        (
            b"clients 1\na put 01 5 5\n",
            fault_in_call(2, CallFault::Number),
        ),
        (
            b"clients 1\na put 1 5\n",
            fault_in_call(2, CallFault::PutWords),
        ),
        (
            b"clients 1\na put 1 5 5 5\n",
            fault_in_call(2, CallFault::PutWords),
        ),
        (
            b"clients 1\na puthex 1 6\n",
            fault_in_call(2, CallFault::HexDigits),
        ),
        (
            b"clients 1\na puthex 1 6A\n",
            fault_in_call(2, CallFault::HexDigits),
        ),
        (b"clients 1\na puthex 1 \n", fault(2, LineFault::StraySpace)),
        (b"clients 1\na  sync\n", fault(2, LineFault::StraySpace)),
        (b"clients 1\nsync\n", fault(2, LineFault::NoCall)),
        (
            b"clients 2\norder ab\norder c\n",
            fault(3, LineFault::Turns),
        ),
        (b"clients 2\norder \n", fault(2, LineFault::StraySpace)),
        (
            b"clients 1\na sync\nb sync\na sync\nclients 9",
            fault(3, LineFault::NoSuchClient { clients: 1 }),
        ),
        (
            b"clients 1\n\n#\na sync\na free 0\na sum 1\na get 2\n",
            None,
        ),
        (b"clients 1\na attach\n", None),
        (b"clients 1\na copy\n", None),
        (
            b"clients 1\na scrub\n",
            fault_in_call(2, CallFault::UnknownCall),
        ),
        (b"clients 1\norder a\norder Z\n", fault(3, LineFault::Turns)),
        (b"clients 1\na put\n", fault_in_call(2, CallFault::PutWords)),
        (b"clients 1\na get\n", fault_in_call(2, CallFault::IdAlone)),
        (
            b"clients 1\na sum 1 2\n",
            fault_in_call(2, CallFault::IdAlone),
        ),
        (
            b"clients 1\na free x\n",
            fault_in_call(2, CallFault::Number),
        ),
        (
            b"clients 1\na puthex 1\n",
            fault_in_call(2, CallFault::PutWords),
        ),
        (
            b"clients 1\na puthex 01 61\n",
            fault_in_call(2, CallFault::Number),
        ),
        (
            b"clients 1\na sync 1\n",
            fault_in_call(2, CallFault::WordAlone),
        ),
        (
            b"clients 1\na attach 3\n",
            fault_in_call(2, CallFault::WordAlone),
        ),
        (
            b"clients 1\na copy 3\n",
            fault_in_call(2, CallFault::WordAlone),
        ),
    ];
    for (bytes, wanted) in rows {
        assert_eq!(rt; refusal(alloc, bytes), wanted);
    }
}

#[test]
fn too_many_calls_and_too_many_bytes_are_refused(rt: HostRuntime) -> Result<(), Fail> {
    let alloc = rt.alloc();
    let mut bytes = Vec::from_slice(alloc, b"clients 1\n")?;
    for _call in 0..10_000 {
        bytes.extend_from_slice(b"a sync\n")?;
    }
    assert_eq!(rt; refusal(alloc, bytes.as_slice()), None);
    bytes.extend_from_slice(b"a sink\n")?;
    assert_eq!(rt;
        refusal(alloc, bytes.as_slice()),
        fault_in_call(10_002, CallFault::UnknownCall)
    );
    bytes.truncate(70_010);
    bytes.extend_from_slice(b"a sync\na sink\n")?;
    assert_eq!(rt; refusal(alloc, bytes.as_slice()), limit(10_001));
    let comment = vec![in alloc; b'#'; 16_777_217]?;
    assert_eq!(rt; refusal(alloc, comment.as_slice()), limit(16_777_217));
    assert_eq!(rt;
        refusal(alloc, &comment.as_slice()[1..]),
        fault(2, LineFault::NoClients)
    );
    Ok(())
}

fn is_call(call: &ScriptCall, line: u64, kind: Kind, id: Option<u64>) -> bool {
    call.line == line && call.kind == kind && call.id == id
}

#[test]
fn a_script_is_kept_by_client_and_by_line(rt: HostRuntime) -> Result<(), Fail> {
    let alloc = rt.alloc();
    let text =
        b"# two\nclients 2\na puthex 7 616263\nb get 7\n\na sync\norder ab\norder ba\nb put 1 3 5\na attach\na copy";
    let script = parse(alloc, text)?;
    assert_eq!(rt; script.clients(), 2);
    assert_eq!(rt; script.order(), [0, 1, 1, 0].as_slice());
    assert_eq!(rt; script.in_line_order(), [0, 1, 0, 1, 0, 0].as_slice());
    let [put, sync, attach, copy] = script.calls(0) else {
        return Err(Fail::from("four calls of a"));
    };
    assert!(rt; is_call(put, 3, Kind::Put, Some(7)));
    assert!(rt; is_call(sync, 6, Kind::Sync, None));
    assert!(rt; is_call(attach, 10, Kind::Attach, None));
    assert!(rt; is_call(copy, 11, Kind::Copy, None));
    assert_eq!(rt; put.fill.to_bytes(alloc)?.as_slice(), b"abc".as_slice());
    assert_eq!(rt; sync.fill.to_bytes(alloc)?.len(), 0);
    assert_eq!(rt; attach.fill.to_bytes(alloc)?.len(), 0);
    let [get, pattern] = script.calls(1) else {
        return Err(Fail::from("two calls of b"));
    };
    assert!(rt; is_call(get, 4, Kind::Get, Some(7)));
    assert!(rt; is_call(pattern, 9, Kind::Put, Some(1)));
    assert_eq!(rt;
        pattern.fill.to_bytes(alloc)?.as_slice(),
        [0x05, 0x0c, 0x13].as_slice()
    );
    assert_eq!(rt; script.calls(2).len(), 0);
    Ok(())
}

#[test]
fn a_pattern_goes_on_past_256_bytes(rt: HostRuntime) -> Result<(), Fail> {
    let fill = Fill::Pattern {
        len: 65_536,
        seed: 5,
    };
    let bytes = fill.to_bytes(rt.alloc())?;
    assert_eq!(rt; bytes.len(), 65_536);
    assert_eq!(rt; bytes.get(256).copied(), Some(6));
    assert_eq!(rt; bytes.get(65_535).copied(), Some(0xfd));
    Ok(())
}

#[test]
fn calls_come_in_line_order_with_their_numbers(rt: HostRuntime) -> Result<(), Fail> {
    let text = b"clients 3\nc sync\na get 1\n\nc get 2\na sync\nc free 3\n";
    let script = parse(rt.alloc(), text)?;
    let mut calls = script.calls_in_order();
    for (actor, number, line) in [(2, 1, 2), (0, 1, 3), (2, 2, 5), (0, 2, 6), (2, 3, 7)] {
        let Some(next) = calls.next_call() else {
            return Err(Fail::from("five calls"));
        };
        assert_eq!(rt; next.actor, actor);
        assert_eq!(rt; next.number, number);
        assert_eq!(rt; next.call.line, line);
    }
    assert!(rt; calls.next_call().is_none());
    assert!(rt; calls.next_call().is_none());
    Ok(())
}

fn read_refusal(alloc: Global, source: &mut Tape) -> Option<ReadRefused> {
    match read_script(alloc, source) {
        Ok(_) => None,
        Err(refused) => Some(refused),
    }
}

#[test]
fn a_source_is_read_to_its_end_in_pieces_of_any_length(rt: HostRuntime) -> Result<(), Fail> {
    let alloc = rt.alloc();
    for most in [1, 7, 8192, usize::MAX] {
        let mut tape = Tape::new(b"clients 2\nb sync\na sync\n", most, 0);
        let script = read_script(alloc, &mut tape)?;
        assert_eq!(rt; script.clients(), 2);
        assert_eq!(rt; script.in_line_order(), [1, 0].as_slice());
        assert!(rt; tape.rest.is_empty());
    }
    Ok(())
}

#[test]
fn a_source_is_refused_for_a_failed_read_or_for_its_bytes(rt: HostRuntime) -> Result<(), Fail> {
    let alloc = rt.alloc();
    let rows: [(&[u8], u64, Option<ReadRefused>); 7] = [
        (
            b"",
            0,
            Some(ReadRefused::ScriptFault {
                line: 1,
                why: LineFault::NoClients,
            }),
        ),
        (b"", 1, Some(ReadRefused::SourceFault)),
        (b"clients 1", 0, None),
        (b"clients 1", 2, Some(ReadRefused::SourceFault)),
        (b"clients 1", 4, Some(ReadRefused::SourceFault)),
        (
            b"clients 1\na sink",
            0,
            Some(ReadRefused::ScriptFault {
                line: 2,
                why: LineFault::InCall {
                    why: CallFault::UnknownCall,
                },
            }),
        ),
        (b"clients 9", 0, Some(ReadRefused::Limit { reached: 9 })),
    ];
    for (bytes, fails, wanted) in rows {
        let mut tape = Tape::new(bytes, 4, fails);
        assert_eq!(rt; read_refusal(alloc, &mut tape), wanted);
    }
    let comment = vec![in alloc; b'#'; 16_800_000]?;
    let mut tape = Tape::new(comment.as_slice(), usize::MAX, 0);
    let wanted = ReadRefused::Limit {
        reached: 16_777_217,
    };
    assert_eq!(rt; read_refusal(alloc, &mut tape), Some(wanted));
    assert_eq!(rt; tape.reads, 2049);
    Ok(())
}
