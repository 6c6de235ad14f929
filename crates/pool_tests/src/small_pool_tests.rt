// A small pool through its calls. At parity 1 and width 3 a block of 512 bytes takes two sectors.
ghost use Rattle.std.specs.Prelude.{◌≡◌, ◌≤◌, ◌<◌, ◌^◌, [], IfOk};
ghost use Rattle.width_map.specs.Births.{first_births};

use block_record::IndexEntry;
use core_blocks::{Blocks, PutRefused};
use range_locks::Locks;
use std::alloc::{AllocError, Global};
use std::test::Fail;
use width_map::Births;

const X: u8 = 8;

fn empty_pool(alloc: Global, capacity: u64) -> Result<Blocks, AllocError>
    requires { capacity ≤ 2 ^ 54 }
    ensures parity { IfOk result (λ blocks. blocks.parity ≡ 1) }
    ensures births { IfOk result (λ blocks. blocks.births ≡ first_births 3) }
    ensures entries { IfOk result (λ blocks. blocks.table.entries ≡ []) }
    ensures capacity { IfOk result (λ blocks. blocks.space.capacity ≡ capacity) }
{
    let entries: [IndexEntry; 0] = [];
    Blocks::load(alloc, 1, Births::first(3), capacity, &entries)
}

/// A pool of 192 sectors with block 7, which starts here.
fn pool_of_one(alloc: Global, start: u64) -> Result<Blocks, AllocError>
    requires { start ≤ 190 }
{
    let entries = [IndexEntry {
        id: 7,
        start,
        len: 512,
        birth: 1,
        digest: [0; 32],
    }];
    Blocks::load(alloc, 1, Births::first(3), 192, &entries)
}

/// Puts 512 bytes, and gives the sector at which they start.
fn put(blocks: &mut Blocks, id: u64, group: u64, locks: &Locks) -> Result<u64, PutRefused>
    requires { 1 ≤ group }
{
    let range = blocks.begin_put(id, 512, group, locks)?;
    let entry = range.into_entry(512, [0; 32]);
    blocks.end_put(entry, group);
    Ok(entry.start)
}

#[test]
fn blocks_fill_the_pool(rt: HostRuntime) -> Result<(), Fail> {
    let locks = Locks::new(rt.alloc());
    let mut blocks = empty_pool(rt.alloc(), 192)?;
    for block in 0..96 {
        assert_eq!(rt; put(&mut blocks, block, 2, &locks), Ok(2 * block));
    }
    assert_eq!(rt;
        put(&mut blocks, 96, 2, &locks),
        Err(PutRefused::NoSpace { sectors: 2 })
    );
    assert_eq!(rt; blocks.len(), 96);
    Ok(())
}

#[test]
fn sectors_that_are_freed_come_back_with_the_answer(rt: HostRuntime) -> Result<(), Fail> {
    let locks = Locks::new(rt.alloc());
    let mut blocks = empty_pool(rt.alloc(), 192)?;
    assert_eq!(rt; put(&mut blocks, 1, 2, &locks), Ok(0));
    assert_eq!(rt; put(&mut blocks, 2, 2, &locks), Ok(2));
    assert_eq!(rt; blocks.remove(1, 4).map(|entry| entry.start), Some(0));
    assert!(rt; blocks.get(1).is_none() && blocks.remove(1, 4).is_none());
    assert_eq!(rt; put(&mut blocks, 3, 4, &locks), Ok(4));
    blocks.synced(3);
    assert_eq!(rt; put(&mut blocks, 4, 4, &locks), Ok(6));
    blocks.synced(4);
    assert_eq!(rt; put(&mut blocks, 5, 5, &locks), Ok(0));
    Ok(())
}

#[test]
fn a_block_that_is_replaced_keeps_its_sectors_until_the_answer(
    rt: HostRuntime,
) -> Result<(), Fail> {
    let locks = Locks::new(rt.alloc());
    let mut blocks = empty_pool(rt.alloc(), 192)?;
    assert_eq!(rt; put(&mut blocks, 1, 2, &locks), Ok(0));
    assert_eq!(rt; put(&mut blocks, 1, 3, &locks), Ok(2));
    assert_eq!(rt; blocks.get(1).map(|entry| entry.start), Some(2));
    assert_eq!(rt; put(&mut blocks, 2, 3, &locks), Ok(4));
    blocks.synced(3);
    assert_eq!(rt; put(&mut blocks, 3, 4, &locks), Ok(0));
    assert_eq!(rt; (blocks.len(), blocks.entries().len()), (3, 3));
    Ok(())
}

#[test]
fn a_put_that_is_given_up_leaves_nothing(rt: HostRuntime) -> Result<(), Fail> {
    let locks = Locks::new(rt.alloc());
    let mut blocks = empty_pool(rt.alloc(), 192)?;
    let range = blocks.begin_put(1, 1024, 2, &locks)?;
    assert_eq!(rt; (range.id, range.birth, range.layout.start()), (1, 2, 0));
    assert_eq!(rt; range.layout.alloc_size(), 4);
    blocks.give_up(range);
    assert_eq!(rt; blocks.len(), 0);
    assert_eq!(rt; put(&mut blocks, 2, 2, &locks), Ok(0));
    Ok(())
}

#[test]
fn a_refusal_names_its_cause(rt: HostRuntime) -> Result<(), Fail> {
    let mut locks = Locks::new(rt.alloc());
    let mut blocks = empty_pool(rt.alloc(), 2048)?;
    for block in 0..512 {
        assert_eq!(rt; put(&mut blocks, block, 2, &locks), Ok(2 * block));
    }
    assert_eq!(rt; put(&mut blocks, 512, 2, &locks), Err(PutRefused::Full));
    assert!(rt; locks.hold_exclusive(1024, 2048, X).is_ok());
    assert_eq!(rt;
        put(&mut blocks, 511, 2, &locks),
        Err(PutRefused::Busy { by: X })
    );
    Ok(())
}

#[test]
fn a_loaded_block_has_its_sectors(rt: HostRuntime) -> Result<(), Fail> {
    let locks = Locks::new(rt.alloc());
    let mut blocks = pool_of_one(rt.alloc(), 2)?;
    assert_eq!(rt; blocks.get(7).map(|entry| entry.start), Some(2));
    assert_eq!(rt; put(&mut blocks, 1, 2, &locks), Ok(0));
    assert_eq!(rt; put(&mut blocks, 2, 2, &locks), Ok(4));
    Ok(())
}

// At width 4 three sectors are one row and a parity column; at width 3 they are two of each.
#[test]
fn a_pool_that_has_grown_gives_wider_blocks_its_new_sectors(rt: HostRuntime) -> Result<(), Fail> {
    let locks = Locks::new(rt.alloc());
    let mut blocks = empty_pool(rt.alloc(), 192)?;
    blocks.grow(4, 256);
    let older = blocks.begin_put(1, 1536, 5, &locks)?;
    assert_eq!(rt; (older.layout.width(), older.layout.alloc_size()), (3, 6));
    let wider = blocks.begin_put(2, 1536, 6, &locks)?;
    assert_eq!(rt; (wider.layout.width(), wider.layout.alloc_size()), (4, 4));
    assert_eq!(rt; (older.layout.start(), wider.layout.start()), (0, 6));
    let large = blocks.begin_put(3, 65_536, 6, &locks)?;
    assert_eq!(rt;
        (large.layout.start(), large.layout.alloc_size()),
        (10, 172)
    );
    let beyond = blocks.begin_put(4, 24_576, 6, &locks)?;
    assert_eq!(rt;
        (beyond.layout.start(), beyond.layout.alloc_size()),
        (182, 64)
    );
    Ok(())
}
