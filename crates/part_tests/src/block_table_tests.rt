// A table through its calls.
use block_record::read_index;
use block_table::{MAX_IDS, ReserveRefused, Table};
use std::test::Fail;

/// The page of one block of 512 bytes at this sector, born in group 4.
fn page_of(id: u64, start: u64) -> [u8; 512] {
    let mut page = [0; 512];
    page[0..8].copy_from_slice(&id.to_be_bytes());
    page[8..16].copy_from_slice(&start.to_be_bytes());
    page[18] = 2;
    page[27] = 4;
    page
}

#[test]
fn a_put_replaces_and_a_removal_takes_away(rt: HostRuntime) -> Result<(), Fail> {
    let mut table = Table::new(rt.alloc());
    assert!(rt; table.is_empty() && table.get(7).is_none());
    let puts = [(7, 0, None), (2, 2, None), (9, 4, None), (7, 6, Some(0))];
    for (id, start, was) in puts {
        let read = read_index(rt.alloc(), &page_of(id, start), 1)?;
        assert_eq!(rt; read.len(), 1);
        let entry = read[0];
        table.reserve_id(entry.id)?;
        assert_eq!(rt; table.put(entry).map(|old| old.start), was, "put {id}");
    }
    assert_eq!(rt; (table.len(), table.entries().len()), (3, 3));
    assert_eq!(rt; table.get(7).map(|entry| entry.start), Some(6));
    let mut ids = table.ids();
    for id in [2, 7, 9] {
        assert_eq!(rt; ids.next(), Some(id));
    }
    assert!(rt; ids.next().is_none());
    assert_eq!(rt; table.remove(2).map(|entry| entry.start), Some(2));
    assert!(rt; table.remove(2).is_none());
    assert_eq!(rt; table.len(), 2);
    Ok(())
}

#[test]
fn the_513th_id_is_refused(rt: HostRuntime) -> Result<(), Fail> {
    let mut table = Table::new(rt.alloc());
    for id in 0..MAX_IDS as u64 {
        table.reserve_id(id)?;
    }
    assert_eq!(rt; table.reserve_id(512), Err(ReserveRefused::Full));
    assert_eq!(rt;
        table.reserve_id(0),
        Ok(()),
        "an id that is reserved already"
    );
    Ok(())
}
