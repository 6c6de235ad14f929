// Journals with an attach or a copy that the plain checker passes, and wrong ones that it refuses.
use core_state::{Answer, Entry, Group, Item, Kind};
use std::alloc::{AllocError, Global};
use std::test::Fail;
use test_pools::journaled::{Journaled, Wrong};
use test_pools::plans::PlannedCall;

/// Calls of one client.
const ATTACH: &[Kind] = &[Kind::Attach];

const TWO_ATTACHES: &[Kind] = &[Kind::Attach, Kind::Attach];

const SYNC: &[Kind] = &[Kind::Sync];

const SYNC_AND_ATTACH: &[Kind] = &[Kind::Sync, Kind::Attach];

const COPY: &[Kind] = &[Kind::Copy];

const ATTACH_AND_COPY: &[Kind] = &[Kind::Attach, Kind::Copy];

const SYNC_AND_COPY: &[Kind] = &[Kind::Sync, Kind::Copy];

fn group_of(group: u64, after: u64, widths: (u32, u32)) -> Group {
    let (from, to) = widths;
    Group {
        group,
        after,
        from,
        to,
    }
}

/// The item of a group of this number and these widths, begun after so many items.
fn listed(group: u64, after: u64, widths: (u32, u32)) -> Item {
    Item::Group(group_of(group, after, widths))
}

/// The item of the client's call of this number.
fn answered(call: u64, kind: Kind, answer: Answer) -> Item {
    Item::Call(Entry {
        caller: 0,
        call,
        kind,
        id: None,
        at: None,
        answer,
    })
}

fn attached(call: u64, width: u32, group: u64) -> Item {
    answered(call, Kind::Attach, Answer::Attached { width, group })
}

fn expanding(call: u64, to: u32) -> Item {
    answered(call, Kind::Attach, Answer::Expanding { to })
}

fn failed(call: u64) -> Item {
    answered(call, Kind::Attach, Answer::NewDeviceFailed { device: 3 })
}

fn completed(call: u64, width: u32) -> Item {
    answered(call, Kind::Copy, Answer::Completed { width })
}

fn paused(call: u64) -> Item {
    answered(call, Kind::Copy, Answer::Paused { device: 1 })
}

fn synced(call: u64, group: u64) -> Item {
    answered(call, Kind::Sync, Answer::Synced { group })
}

/// The client's calls of these kinds.
fn planned(alloc: Global, kinds: &[Kind]) -> Result<Vec<PlannedCall>, AllocError> {
    let mut calls = Vec::new(alloc);
    for (place, kind) in kinds.iter().enumerate() {
        calls.push(PlannedCall {
            caller: 0,
            number: (place as u64).wrapping_add(1),
            kind: *kind,
            id: None,
            bytes: Vec::new(alloc),
        })?;
    }
    Ok(calls)
}

/// What is wrong first in a journal of such calls that begins with a group 3 of these widths.
fn first_wrong(
    alloc: Global,
    widths: (u32, u32),
    kinds: &[Kind],
    items: &[Item],
) -> Result<Option<(usize, Wrong)>, AllocError> {
    let calls = planned(alloc, kinds)?;
    let told = Journaled {
        opening_group: group_of(3, 0, widths),
        opening: &[],
        calls: calls.as_slice(),
        items,
    };
    Ok(told.first_wrong())
}

/// Widths of a pool of three devices, of one that is widened to four, and of those after it.
const THREE: (u32, u32) = (3, 3);

const TO_FOUR: (u32, u32) = (3, 4);

const FOUR: (u32, u32) = (4, 4);

const TO_FIVE: (u32, u32) = (4, 5);

#[test]
fn an_attach_that_widens_the_pool_is_legal(rt: HostRuntime) -> Result<(), Fail> {
    let alloc = rt.alloc();
    let items = [
        listed(3, 0, THREE),
        listed(4, 1, TO_FOUR),
        attached(1, 4, 4),
        expanding(2, 4),
    ];
    assert_eq!(rt; first_wrong(alloc, THREE, TWO_ATTACHES, &items)?, None);
    let items = [
        listed(3, 0, THREE),
        listed(4, 1, THREE),
        failed(1),
        listed(5, 3, TO_FOUR),
        attached(2, 4, 5),
    ];
    assert_eq!(rt; first_wrong(alloc, THREE, TWO_ATTACHES, &items)?, None);
    let items = [
        listed(3, 0, TO_FOUR),
        listed(4, 1, TO_FOUR),
        synced(1, 4),
        expanding(2, 4),
    ];
    assert_eq!(rt; first_wrong(alloc, TO_FOUR, SYNC_AND_ATTACH, &items)?, None);
    Ok(())
}

#[test]
fn a_group_of_other_widths_is_no_attachs(rt: HostRuntime) -> Result<(), Fail> {
    let alloc = rt.alloc();
    // The widths at the opening, the calls, those of a group behind it, and what is answered then.
    let rows: [((u32, u32), &[Kind], (u32, u32), Item); 10] = [
        (THREE, SYNC, TO_FOUR, synced(1, 4)),
        (THREE, ATTACH, TO_FOUR, expanding(1, 4)),
        (THREE, ATTACH, TO_FOUR, failed(1)),
        (THREE, ATTACH, TO_FOUR, attached(1, 4, 3)),
        (THREE, ATTACH, THREE, attached(1, 4, 4)),
        (THREE, ATTACH, TO_FIVE, attached(1, 5, 4)),
        (TO_FOUR, SYNC, THREE, synced(1, 4)),
        (TO_FOUR, COPY, THREE, completed(1, 3)),
        (THREE, COPY, FOUR, completed(1, 4)),
        (TO_FOUR, COPY, TO_FIVE, paused(1)),
    ];
    for (widths, kinds, later, answer) in rows {
        let items = [listed(3, 0, widths), listed(4, 1, later), answer];
        let wrong = first_wrong(alloc, widths, kinds, &items)?;
        assert_eq!(rt; wrong, Some((1, Wrong::Group)), "{widths:?} {later:?}");
    }
    let items = [
        listed(3, 0, TO_FOUR),
        listed(4, 1, TO_FIVE),
        attached(1, 5, 4),
    ];
    let wrong = first_wrong(alloc, TO_FOUR, ATTACH, &items)?;
    assert_eq!(rt; wrong, Some((1, Wrong::Group)));
    let items = [listed(3, 0, TO_FOUR)];
    let wrong = first_wrong(alloc, THREE, &[], &items)?;
    assert_eq!(rt; wrong, Some((0, Wrong::Opening)));
    Ok(())
}

#[test]
fn an_attach_names_the_group_just_before_it(rt: HostRuntime) -> Result<(), Fail> {
    let alloc = rt.alloc();
    let items = [
        listed(3, 0, THREE),
        listed(4, 1, TO_FOUR),
        attached(1, 5, 4),
    ];
    let wrong = first_wrong(alloc, THREE, ATTACH, &items)?;
    assert_eq!(rt; wrong, Some((2, Wrong::Attach)), "to another width");
    let items = [listed(3, 0, TO_FOUR), attached(1, 4, 3)];
    let wrong = first_wrong(alloc, TO_FOUR, ATTACH, &items)?;
    assert_eq!(rt; wrong, Some((1, Wrong::Attach)), "the opening's group");
    let items = [
        listed(3, 0, THREE),
        listed(4, 1, THREE),
        synced(1, 4),
        attached(2, 4, 4),
    ];
    let wrong = first_wrong(alloc, THREE, SYNC_AND_ATTACH, &items)?;
    assert_eq!(rt; wrong, Some((3, Wrong::Attach)), "a group further before");
    let items = [
        listed(3, 0, THREE),
        failed(1),
        listed(4, 1, TO_FOUR),
        attached(2, 4, 4),
    ];
    let wrong = first_wrong(alloc, THREE, TWO_ATTACHES, &items)?;
    assert_eq!(rt;
        wrong,
        Some((3, Wrong::Attach)),
        "begun before its last answer"
    );
    Ok(())
}

#[test]
fn an_expansion_that_is_told_is_there(rt: HostRuntime) -> Result<(), Fail> {
    let alloc = rt.alloc();
    for (widths, to) in [
        (THREE, 4),
        (THREE, 3),
        (TO_FOUR, 3),
        (TO_FOUR, 5),
        (FOUR, 4),
    ] {
        let items = [listed(3, 0, widths), expanding(1, to)];
        let wrong = first_wrong(alloc, widths, ATTACH, &items)?;
        assert_eq!(rt; wrong, Some((1, Wrong::Expanding)), "{widths:?} {to}");
    }
    Ok(())
}

#[test]
fn an_attachs_answers_are_for_no_sync(rt: HostRuntime) -> Result<(), Fail> {
    let alloc = rt.alloc();
    let answers = [
        Answer::Attached { width: 4, group: 4 },
        Answer::Expanding { to: 4 },
        Answer::DeviceOut { device: 1 },
        Answer::NoDevice {
            devices: 3,
            width: 3,
        },
        Answer::NewDeviceFailed { device: 3 },
        Answer::Taken { slot: 3 },
    ];
    for answer in answers {
        let items = [listed(3, 0, THREE), answered(1, Kind::Sync, answer)];
        let wrong = first_wrong(alloc, THREE, SYNC, &items)?;
        assert_eq!(rt; wrong, Some((1, Wrong::Answer)));
    }
    let items = [
        listed(3, 0, THREE),
        listed(4, 1, THREE),
        answered(1, Kind::Attach, Answer::Synced { group: 4 }),
    ];
    let wrong = first_wrong(alloc, THREE, ATTACH, &items)?;
    assert_eq!(rt; wrong, Some((2, Wrong::Answer)));
    Ok(())
}

#[test]
fn a_copy_that_ends_the_expansion_is_legal(rt: HostRuntime) -> Result<(), Fail> {
    let alloc = rt.alloc();
    let items = [
        listed(3, 0, THREE),
        listed(4, 1, TO_FOUR),
        attached(1, 4, 4),
        listed(5, 3, TO_FOUR),
        listed(6, 4, TO_FOUR),
        listed(7, 5, FOUR),
        completed(2, 4),
    ];
    assert_eq!(rt; first_wrong(alloc, THREE, ATTACH_AND_COPY, &items)?, None);
    let items = [
        listed(3, 0, TO_FOUR),
        listed(4, 1, FOUR),
        synced(1, 4),
        completed(2, 4),
    ];
    assert_eq!(rt; first_wrong(alloc, TO_FOUR, SYNC_AND_COPY, &items)?, None);
    let items = [listed(3, 0, THREE), completed(1, 3)];
    assert_eq!(rt; first_wrong(alloc, THREE, COPY, &items)?, None);
    let items = [listed(3, 0, TO_FOUR), listed(4, 1, TO_FOUR), paused(1)];
    assert_eq!(rt; first_wrong(alloc, TO_FOUR, COPY, &items)?, None);
    Ok(())
}

#[test]
fn a_lone_group_is_a_copys(rt: HostRuntime) -> Result<(), Fail> {
    let alloc = rt.alloc();
    let items = [
        listed(3, 0, THREE),
        listed(4, 1, THREE),
        listed(5, 2, THREE),
        synced(1, 5),
    ];
    let wrong = first_wrong(alloc, THREE, SYNC, &items)?;
    assert_eq!(rt; wrong, Some((1, Wrong::Lone)), "no client copies");
    let items = [
        listed(3, 0, TO_FOUR),
        listed(4, 1, TO_FOUR),
        synced(1, 4),
        listed(5, 2, FOUR),
        completed(2, 4),
    ];
    let wrong = first_wrong(alloc, TO_FOUR, SYNC_AND_COPY, &items)?;
    assert_eq!(rt;
        wrong,
        Some((3, Wrong::Lone)),
        "begun before the copier's last answer"
    );
    let items = [listed(3, 0, FOUR), completed(1, 4), listed(4, 2, FOUR)];
    let wrong = first_wrong(alloc, FOUR, COPY, &items)?;
    assert_eq!(rt; wrong, Some((2, Wrong::Lone)), "behind the copy");
    Ok(())
}

#[test]
fn a_copys_answer_fits_the_widths(rt: HostRuntime) -> Result<(), Fail> {
    let alloc = rt.alloc();
    for (widths, answer, wanted) in [
        (FOUR, completed(1, 3), Wrong::Completed),
        (TO_FOUR, completed(1, 4), Wrong::Completed),
        (TO_FOUR, completed(1, 3), Wrong::Completed),
        (FOUR, paused(1), Wrong::Paused),
    ] {
        let items = [listed(3, 0, widths), answer];
        let wrong = first_wrong(alloc, widths, COPY, &items)?;
        assert_eq!(rt; wrong, Some((1, wanted)), "{widths:?}");
    }
    for answer in [Answer::Completed { width: 3 }, Answer::Paused { device: 1 }] {
        let items = [listed(3, 0, THREE), answered(1, Kind::Sync, answer)];
        let wrong = first_wrong(alloc, THREE, SYNC, &items)?;
        assert_eq!(rt; wrong, Some((1, Wrong::Answer)));
    }
    Ok(())
}
