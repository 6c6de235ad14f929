// Worked rows of the bank, the source and the sink.
use bank_mem::{ImagesRefused, MemBank, MemSink, MemSource, Tear, Torn};
use bank_trait::{Bank, Failed, Sink, Source};
use std::alloc::Global;
use std::process::Abort;
use std::test::Fail;

#[test]
fn a_write_is_read_back_from_its_sector_alone(rt: HostRuntime) -> Result<(), Fail> {
    let mut bank = MemBank::new(rt.alloc(), 3, 4)?;
    assert_eq!(rt; bank.devices(), 3);
    assert_eq!(rt; bank.sectors(), 4);
    assert_eq!(rt; bank.write(1, 2, &[7; 512]), Ok(()));
    assert_eq!(rt; bank.sync(1), Ok(()));
    for (device, sector, wanted) in [(0, 2, 0), (1, 1, 0), (1, 2, 7), (1, 3, 0), (2, 2, 0)] {
        assert!(rt; device < bank.devices() && sector < bank.sectors());
        let mut bytes = [1; 512];
        assert_eq!(rt; bank.read(device, sector, &mut bytes), Ok(()));
        assert!(rt; bytes == [wanted; 512], "at {device}, {sector}");
    }
    Ok(())
}

#[test]
fn listed_calls_fail_and_change_nothing_that_is_read(rt: HostRuntime) -> Result<(), Fail> {
    let mut bank = MemBank::new(rt.alloc(), 2, 2)?;
    bank.fail_at(&[(0, 1), (1, 0)])?;
    bank.fail_at(&[(0, 2)])?;
    let mut bytes = [1; 512];
    assert_eq!(rt; bank.write(0, 0, &[7; 512]), Ok(()));
    assert_eq!(rt; bank.write(0, 0, &[8; 512]), Err(Failed));
    assert_eq!(rt; bank.sync(0), Err(Failed));
    assert_eq!(rt; bank.read(1, 0, &mut bytes), Err(Failed));
    assert_eq!(rt; bank.read(0, 0, &mut bytes), Ok(()));
    assert!(rt; bytes == [7; 512]);
    Ok(())
}

#[test]
fn a_source_hands_over_small_pieces_and_ends(rt: HostRuntime) -> Result<(), Fail> {
    let mut source = MemSource::new(rt.alloc(), b"abcde", &[1])?;
    for (wanted, text) in [
        (Ok(2), *b"ab"),
        (Err(Failed), *b".."),
        (Ok(2), *b"cd"),
        (Ok(1), *b"e."),
        (Ok(0), *b".."),
    ] {
        let mut piece = *b"..";
        assert_eq!(rt; source.read(&mut piece), wanted);
        assert!(rt; piece == text);
    }
    Ok(())
}

#[test]
fn a_sink_takes_what_fits_and_then_fails(rt: HostRuntime) -> Result<(), Fail> {
    let mut sink = MemSink::with_room(rt.alloc(), 5, &[1])?;
    for (piece, wanted) in [
        ("abc", Ok(3)),
        ("def", Err(Failed)),
        ("", Ok(0)),
        ("def", Ok(2)),
        ("f", Err(Failed)),
        ("", Ok(0)),
    ] {
        assert_eq!(rt; sink.write(piece.as_bytes()), wanted, "at {piece}");
    }
    assert_eq!(rt; sink.as_slice(), b"abcde".as_slice());
    Ok(())
}

#[test]
fn all_calls_fail_from_a_number_on(rt: HostRuntime) -> Result<(), Fail> {
    let mut bank = MemBank::new(rt.alloc(), 2, 2)?;
    bank.fail_from(1, 1)?;
    assert_eq!(rt; bank.write(1, 0, &[7; 512]), Ok(()));
    assert_eq!(rt; bank.sync(1), Err(Failed));
    assert_eq!(rt; bank.write(1, 0, &[8; 512]), Err(Failed));
    assert_eq!(rt; bank.sync(0), Ok(()));
    assert_eq!(rt; bank.sync(1), Err(Failed));
    Ok(())
}

#[test]
fn images_are_held_and_a_sector_can_be_spoiled(rt: HostRuntime) -> Result<(), Fail> {
    let alloc = rt.alloc();
    let mut images = Vec::new(alloc);
    images.push(Vec::from_slice(alloc, &[[1; 512], [2; 512]])?)?;
    images.push(Vec::from_slice(alloc, &[[3; 512], [4; 512]])?)?;
    let mut bank = MemBank::from_images(alloc, images)?;
    assert!(rt; bank.devices() == 2 && bank.sectors() == 2);
    bank.spoil(1, 0, 9)?;
    for (device, sector, wanted) in [(0, 0, 1), (0, 1, 2), (1, 0, 9), (1, 1, 4)] {
        assert!(rt; device < bank.devices() && sector < bank.sectors());
        let mut bytes = [0; 512];
        assert_eq!(rt; bank.read(device, sector, &mut bytes), Ok(()));
        assert!(rt; bytes == [wanted; 512], "at {device}, {sector}");
    }
    Ok(())
}

#[test]
fn images_of_unequal_lengths_are_refused(rt: HostRuntime) -> Result<(), Fail> {
    let alloc = rt.alloc();
    let mut images = Vec::new(alloc);
    images.push(Vec::from_slice(alloc, &[[1; 512]])?)?;
    images.push(Vec::new(alloc))?;
    match MemBank::from_images(alloc, images) {
        Ok(_) => assert!(rt; false),
        Err(refused) => assert_eq!(rt; refused, ImagesRefused::Unequal),
    }
    Ok(())
}

// What a read of each sector of a bank of two devices of two sectors gives, by its first byte.
fn first_bytes(rt: &impl Abort, bank: &mut MemBank) -> [u8; 4] {
    let mut firsts = [0; 4];
    for (place, first) in firsts.iter_mut().enumerate() {
        let device = place as u32 / 2;
        let sector = place as u64 % 2;
        assert!(rt; device < bank.devices() && sector < bank.sectors());
        let mut bytes = [0; 512];
        assert_eq!(rt; bank.read(device, sector, &mut bytes), Ok(()));
        assert!(rt; bytes == [bytes[0]; 512]);
        *first = bytes[0];
    }
    firsts
}

// What a stop leaves of such a bank where it tears all of its sectors so.
fn torn_bytes(
    rt: &impl Abort,
    alloc: Global,
    bank: &MemBank,
    call: u64,
    how: Tear,
) -> Result<[u8; 4], Fail> {
    let torn = [(0, 0), (0, 1), (1, 0), (1, 1)].map(|(device, sector)| Torn {
        device,
        sector,
        how,
    });
    let images = bank.crash_at(alloc, call, &torn)?;
    let mut next = MemBank::from_images(alloc, images)?;
    Ok(first_bytes(rt, &mut next))
}

#[test]
fn a_stop_leaves_what_is_synced_and_tears_the_rest(rt: HostRuntime) -> Result<(), Fail> {
    let alloc = rt.alloc();
    let mut bank = MemBank::new(alloc, 2, 2)?;
    bank.fail_at(&[(0, 3)])?;
    assert_eq!(rt; bank.write(0, 0, &[1; 512]), Ok(()));
    assert_eq!(rt; bank.sync(0), Ok(()));
    assert_eq!(rt; bank.write(0, 0, &[2; 512]), Ok(()));
    assert_eq!(rt; bank.write(0, 1, &[4; 512]), Err(Failed));
    assert_eq!(rt; bank.write(1, 1, &[3; 512]), Ok(()));
    assert_eq!(rt; bank.sync(0), Ok(()));
    bank.spoil(1, 1, 9)?;
    for (call, unlisted, kept, filled) in [
        (0, [0, 0, 0, 0], [0, 0, 0, 0], [0, 0, 0, 0]),
        (1, [0, 0, 0, 0], [1, 0, 0, 0], [0xa5, 0, 0, 0]),
        (2, [1, 0, 0, 0], [1, 0, 0, 0], [1, 0, 0, 0]),
        (3, [1, 0, 0, 0], [2, 0, 0, 0], [0xa5, 0, 0, 0]),
        (4, [1, 0, 0, 0], [2, 4, 0, 0], [0xa5, 0xa5, 0, 0]),
        (5, [1, 0, 0, 0], [2, 4, 0, 3], [0xa5, 0xa5, 0, 0xa5]),
        (6, [2, 0, 0, 0], [2, 0, 0, 3], [2, 0, 0, 0xa5]),
        (7, [2, 0, 0, 9], [2, 0, 0, 9], [2, 0, 0, 9]),
    ] {
        let images = bank.crash_at(alloc, call, &[])?;
        let mut next = MemBank::from_images(alloc, images)?;
        assert!(rt; first_bytes(&rt, &mut next) == unlisted, "none at {call}");
        assert!(rt;
            torn_bytes(&rt, alloc, &bank, call, Tear::Kept)? == kept,
            "kept at {call}"
        );
        let torn = torn_bytes(&rt, alloc, &bank, call, Tear::Filled(0xa5))?;
        assert!(rt; torn == filled, "filled at {call}");
    }
    assert_eq!(rt; bank.clock(), 7);
    Ok(())
}

#[test]
fn the_last_entry_says_how_a_sector_is_torn(rt: HostRuntime) -> Result<(), Fail> {
    let alloc = rt.alloc();
    let mut bank = MemBank::new(alloc, 2, 2)?;
    assert_eq!(rt; bank.write(1, 0, &[7; 512]), Ok(()));
    let [first, last] = [Tear::Kept, Tear::Filled(8)].map(|how| Torn {
        device: 1,
        sector: 0,
        how,
    });
    for (torn, wanted) in [([first, last], 8), ([last, first], 7)] {
        let images = bank.crash_at(alloc, bank.clock(), &torn)?;
        let mut next = MemBank::from_images(alloc, images)?;
        assert!(rt; first_bytes(&rt, &mut next) == [0, 0, wanted, 0]);
    }
    Ok(())
}
