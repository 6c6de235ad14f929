// The worked row, a seat that is joined, and two threads that take turns.
ghost use Rattle.std.specs.Prelude.{◌≡◌, false, IfSome, length};
ghost use Rattle.std.specs.Thread.{IsSync};

use crate::{Represents, Seat, Turns};
use std::sync::Wait;
use std::test::Fail;
use std::thread::{Threads, join};

/// How many entries there are.
#[derive(Drop)]
struct Tally {
    count: u64,
}

impl Represents<(), u8> for Tally {
    ghost use Rattle.std.specs.Prelude.{◌≡◌, length};

    ghost represents = { λ base entries tally. tally.count ≡ length entries };
}

/// Takes some turns, each with an entry.
fn count_up<R: Wait>(
    rt: &R,
    turns: &Turns<Tally, (), u8>,
    mut seat: Seat<Tally, u8>,
    times: u64,
) -> Option<Seat<Tally, u8>>
    requires { (seat.lock ≡ turns.now.id) × (seat.holds ≡ false) }
    ensures { IfSome result (λ after. (after.lock ≡ turns.now.id) × (after.holds ≡ false)) }
{
    for _ in 0..times {
        let Ok(mut held) = turns.take(rt, &mut seat) else {
            return None;
        };
        held.state.count += 1;
        turns.give(&mut seat, held, &7);
    }
    Some(seat)
}

#[test]
fn the_word_counts_turns(rt: HostRuntime) -> Result<(), Fail> {
    let Ok((turns, mut seat)) = Turns::<Tally, (), u8>::new(rt.alloc(), Tally { count: 0 }, &())
    else {
        panic!(&rt; "no memory")
    };
    assert!(&rt; turns.table.shared.peek(0) == 0);
    let Ok(held) = turns.take(&rt, &mut seat) else {
        panic!(&rt; "spent")
    };
    assert!(&rt; turns.table.shared.peek(0) == 1);
    turns.give_back(&mut seat, held);
    assert!(&rt; turns.table.shared.peek(0) == 0);
    let Ok(mut held) = turns.take(&rt, &mut seat) else {
        panic!(&rt; "spent")
    };
    held.state.count += 1;
    turns.give(&mut seat, held, &7);
    assert!(&rt; turns.table.shared.peek(0) == 2);
    let mut second = turns.split(&mut seat);
    let Ok(held) = turns.take(&rt, &mut second) else {
        panic!(&rt; "spent")
    };
    assert!(&rt; second.events() == 1);
    turns.give_back(&mut second, held);
    turns.join(&mut seat, second);
    let tally = turns.close(&rt, seat);
    assert!(&rt; tally.count == 1);
    Ok(())
}

#[test]
fn a_seat_has_seen_what_one_that_was_joined_had(rt: HostRuntime) -> Result<(), Fail> {
    let Ok((turns, mut seat)) = Turns::<Tally, (), u8>::new(rt.alloc(), Tally { count: 0 }, &())
    else {
        panic!(&rt; "no memory")
    };
    let second = turns.split(&mut seat);
    let Some(second) = count_up(&rt, &turns, second, 3) else {
        panic!(&rt; "spent")
    };
    assert!(&rt; seat.events() == 0 && second.events() == 3);
    turns.join(&mut seat, second);
    assert!(&rt; seat.events() == 3);
    let tally = turns.close(&rt, seat);
    assert!(&rt; tally.count == 3);
    Ok(())
}

#[test]
fn two_threads_take_turns(rt: HostRuntime) -> Result<(), Fail> {
    let Ok((turns, mut seat)) = Turns::<Tally, (), u8>::new(rt.alloc(), Tally { count: 0 }, &())
    else {
        panic!(&rt; "no memory")
    };
    let other = turns.split(&mut seat);
    let (one, two) = join_two(&rt, &turns, seat, other);
    let (Some(mut seat), Some(other)) = (one, two) else {
        panic!(&rt; "spent")
    };
    turns.join(&mut seat, other);
    let tally = turns.close(&rt, seat);
    assert!(&rt; tally.count == 2_000);
    Ok(())
}

/// Two threads take a thousand turns each.
fn join_two<R: Threads + Wait + Sync>(
    rt: &R,
    turns: &Turns<Tally, (), u8>,
    seat: Seat<Tally, u8>,
    other: Seat<Tally, u8>,
) -> (Option<Seat<Tally, u8>>, Option<Seat<Tally, u8>>)
    requires seat { (seat.lock ≡ turns.now.id) × (seat.holds ≡ false) }
    requires other { (other.lock ≡ turns.now.id) × (other.holds ≡ false) }
    ensures seat { IfSome result.0 (λ after. (after.lock ≡ turns.now.id) × (after.holds ≡ false)) }
    ensures other { IfSome result.1 (λ after. (after.lock ≡ turns.now.id) × (after.holds ≡ false)) }
{
    join(
        rt,
        move || -> Option<Seat<Tally, u8>>
            requires { IsSync R.row × (seat.lock ≡ turns.now.id) × (seat.holds ≡ false) }
            ensures { IfSome result (λ after. (after.lock ≡ turns.entry.now.id) × (after.holds ≡ false)) }
        { count_up(rt, turns, seat, 1_000) },
        move || -> Option<Seat<Tally, u8>>
            requires { IsSync R.row × (other.lock ≡ turns.now.id) × (other.holds ≡ false) }
            ensures { IfSome result (λ after. (after.lock ≡ turns.entry.now.id) × (after.holds ≡ false)) }
        { count_up(rt, turns, other, 1_000) },
    )
}
