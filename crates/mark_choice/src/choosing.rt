// Which reflow a commit records, and what it holds.
ghost use Rattle.std.specs.Prelude.{◌≡◌, ◌≤◌, ◌↔◌, IsTrue};
ghost use Rattle.reflow_mark.specs.Reflow.{Expands, IsRightReflow};
ghost use Rattle.mark_choice.specs.CommitChoice.{IsCommitChoice, IsFilledOrDrained, IsNextMark, moved_to};
ghost use Rattle.mark_choice.specs.CommitChoice.{range_of_commit};
ghost use Rattle.shadow_write.specs.Band.{IsFrontOf, IsWidening, StaysIn, copied_of};
ghost use Rattle.shadow_write.specs.Required.{front_after_stop};
ghost use Rattle.mark_choice.specs.Advance.{AsksNoMore};
ghost use Rattle.mark_choice.specs.Clear.{HasNoShared};

use range_locks::{HoldKind, Locks};
use reflow_mark::{Reflow, State};

/// Whether all is filled or drained, and nobody holds a sector that goes through the scratch area.
fn is_filled_or_drained(reflow: &Reflow, done: u64, locks: &Locks) -> bool
    ensures { IsTrue result ↔ IsFilledOrDrained reflow.now done locks.now }
{
    reflow.expands()
        && done == reflow.scratch_end()
        && locks
            .blocker(0, reflow.scratch_end(), HoldKind::Exclusive)
            .is_none()
}

/// The mark that a commit may record, in sectors: the front `done`, but not past the lowest shared hold at or
/// above the present mark; and the present mark while a shared hold lies across it.
#[tactic(auto, using(crate::proofs::Clear::next_mark_clear, crate::proofs::Clear::next_mark_between))]
pub fn next_mark(mark: u64, done: u64, locks: &Locks) -> u64
    ensures value { IsNextMark locks.now mark done result }

    // Never back, never past the front, and past no sector under a shared hold.
    ensures between { mark ≤ done → (mark ≤ result) × (result ≤ done) }
    ensures clear { HasNoShared locks.now (mark, result) }
{
    let shared = locks.first_shared_from(mark);
    if locks.straddles(mark) {
        return mark;
    }
    match shared {
        Some(shared) => done.min(shared),
        None => done,
    }
}

/// The reflow at a mark: at the end the pool has the new width.
fn moved_to(reflow: &Reflow, mark: u64) -> Reflow
    requires rows { reflow.now.rows ≤ 65536 }
    ensures { result ≡ moved_to reflow.now mark }
{
    if mark == reflow.sectors() {
        return Reflow::at_rest(reflow.to, reflow.rows);
    }
    Reflow {
        state: State::Moved,
        mark,
        ..*reflow
    }
}

/// The reflow that a commit records, where sectors below `done` were filled, drained or copied.
#[tactic(auto, using(crate::proofs::Clear::choice_clear, crate::proofs::Advance::choice_asks_no_more, crate::proofs::Advance::choice_within, crate::proofs::Still::choice_still))]
pub fn choose(reflow: &Reflow, done: u64, locks: &Locks) -> Reflow
    requires rows { reflow.now.rows ≤ 65536 }
    ensures choice { IsCommitChoice reflow.now done locks.now result }

    // The sectors whose standing changes are under no shared hold.
    ensures clear { HasNoShared locks.now (range_of_commit reflow.now result) }

    // What the group asks for after a stop is right already, and stays in the band of the present mark.
    ensures right { IsWidening reflow.now → IsFrontOf reflow.now done → AsksNoMore reflow.now done result }
    ensures within { IsWidening reflow.now → IsFrontOf reflow.now done
        → StaysIn reflow.now (copied_of reflow.now done) result (front_after_stop result) }

    // It is the same reflow where no expansion runs, and where the front is that of an opening: nothing was filled,
    // drained or copied that a stop would not leave.
    ensures still { IsRightReflow reflow.now → (Expands reflow.now → done ≡ front_after_stop reflow.now)
        → result ≡ reflow.now }
{
    let state = match reflow.state {
        State::None => State::Valid,
        State::Valid => State::Moved,
        State::Moved => return moved_to(reflow, next_mark(reflow.mark, done, locks)),
    };
    if !is_filled_or_drained(reflow, done, locks) {
        return *reflow;
    }
    Reflow {
        state,
        mark: reflow.scratch_end(),
        ..*reflow
    }
}

/// The sectors whose standing changes with a choice, which the commit holds until its answer: from the first to
/// before the second. Empty where it changes nothing.
#[tactic(auto, using(crate::proofs::Still::nothing_held))]
pub fn held_range(before: &Reflow, chosen: &Reflow) -> (u64, u64)
    requires rows { before.now.rows ≤ 65536 }
    ensures value { result ≡ range_of_commit before.now chosen.now }
    ensures none { chosen.now ≡ before.now → result.0 ≡ result.1 }
{
    match (before.state, chosen.state) {
        (State::None, State::Valid) | (State::Valid, State::Moved) => (0, before.scratch_end()),
        (State::Moved, State::Moved) => (before.mark, chosen.mark),
        (State::Moved, State::None) => (before.mark, before.sectors()),
        _ => (0, 0),
    }
}
