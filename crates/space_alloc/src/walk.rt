// How far a search for a run of free sectors has come.
ghost use Rattle.std.specs.Prelude.{◌≡◌, ◌+◌, ◌/◌, ◌<◌, ◌≤◌, ◌^◌, IfNone, IfSome, get_or, length, max, None, Some};
ghost use Rattle.std.specs.Option.{unwrap_or};
ghost use Rattle.space_alloc.specs.Fit.{HasWalked, IsHead, IsLowest, IsSorted, first_run, left_of, steps_to};

use range_locks::{Hold, Steps};
use std::sync::ledger::Ledger;

/// No run fits below `start`. The free run under way goes up to `end`, and the next one begins at the edge with
/// the number `next`. So many shared and exclusive holds end at or below `start`.
#[derive(Clone, Copy)]
pub struct Walk {
    pub start: u64,
    pub end: u64,
    pub next: usize,
    pub shared: usize,
    pub exclusive: usize,
    /// The first exclusive hold in the way of the lowest run that fits beside the shared ones.
    pub hindered: Option<Hold>,
}

/// At the first free run.
pub fn begin<L: Ledger>(edges: &[u64], capacity: u64, steps: &mut Steps<L>) -> Walk
    ensures value { result ≡ record {
      start = 0;
      end = get_or edges.now 0 capacity;
      next = 1;
      shared = 0;
      exclusive = 0;
      hindered = None;
    } }
    ensures steps { steps.new ≤ steps.old + first_run edges.now capacity }
{
    let end = edge_or(edges, 0, capacity);
    if 0 < end {
        steps.tick();
    }
    Walk {
        start: 0,
        end,
        next: 1,
        shared: 0,
        exclusive: 0,
        hindered: None,
    }
}

/// The edge with a number, or this sector where there is none.
fn edge_or(edges: &[u64], at: usize, other: u64) -> u64
    ensures { result ≡ get_or edges.now at other }
{
    if at < edges.len() { edges[at] } else { other }
}

/// The hold at a place, if it begins below a sector.
fn head_below<L: Ledger>(holds: &[Hold], at: usize, end: u64, steps: &mut Steps<L>) -> Option<Hold>
    requires within { at ≤ length holds.now }
    ensures head { IsHead holds.now at end result }
    ensures steps { steps.new ≤ steps.old + 1 }
    ensures none { result ≡ None → steps.new + at ≤ steps.old + length holds.now }
{
    if at == holds.len() {
        return None;
    }
    steps.tick();
    let hold = holds[at];
    if hold.lo < end { Some(hold) } else { None }
}

/// One free run or one hold further, or `None` where a run fits at the start of the walk.
pub fn advance<L: Ledger>(
    walk: Walk,
    edges: &[u64],
    capacity: u64,
    len: u64,
    shared: &[Hold],
    exclusive: &[Hold],
    steps: &mut Steps<L>,
) -> Option<Walk>
    requires len { 0 < len }
    requires sorted { IsSorted edges.now shared.now exclusive.now }
    requires walked { HasWalked edges.now shared.now exclusive.now capacity len walk }
    requires within { walk.start + len ≤ capacity }
    ensures walked { IfSome result (HasWalked edges.now shared.now exclusive.now capacity len) }
    ensures less { IfSome result (λ next. left_of edges.now shared.now exclusive.now capacity next
        < left_of edges.now shared.now exclusive.now capacity walk) }
    ensures steps { IfSome result (λ next. steps.new + steps_to walk ≤ steps.old + steps_to next) }
    ensures found { IfNone result (IsLowest edges.now shared.now exclusive.now capacity len walk.start) }
    ensures found_steps { IfNone result (
        steps.new + walk.shared + walk.exclusive ≤ steps.old + length shared.now + length exclusive.now) }
{
    let end = walk.start + len;
    if walk.end < end {
        return Some(next_run(walk, edges, capacity, steps));
    }
    if let Some(hold) = head_below(shared, walk.shared, end, steps) {
        return Some(Walk {
            start: walk.start.max(hold.hi),
            shared: walk.shared + 1,
            ..walk
        });
    }
    let Some(hold) = head_below(exclusive, walk.exclusive, end, steps) else {
        return None;
    };
    Some(pass(walk, hold))
}

/// At the next free run, or past all of them.
fn next_run<L: Ledger>(walk: Walk, edges: &[u64], capacity: u64, steps: &mut Steps<L>) -> Walk
    ensures run { walk.next < length edges.now → result ≡ record walk {
      start = max walk.start (get_or edges.now walk.next 0);
      end = get_or edges.now (walk.next + 1) capacity;
      next = walk.next + 2;
    } }
    ensures none { length edges.now ≤ walk.next → result ≡ record walk { start = capacity } }
    ensures steps { steps.new + walk.next / 2 ≤ steps.old + result.next / 2 }
{
    if walk.next >= edges.len() {
        return Walk {
            start: capacity,
            ..walk
        };
    }
    steps.tick();
    Walk {
        start: walk.start.max(edges[walk.next]),
        end: edge_or(edges, walk.next + 1, capacity),
        next: walk.next + 2,
        ..walk
    }
}

/// Past an exclusive hold that begins below the end of the run.
fn pass(walk: Walk, hold: Hold) -> Walk
    requires few { walk.exclusive < 2 ^ 63 }
    ensures ended { hold.hi ≤ walk.start → result ≡ record walk { exclusive = walk.exclusive + 1 } }
    ensures hinders { walk.start < hold.hi → result ≡ record walk {
      start = hold.hi;
      exclusive = walk.exclusive + 1;
      hindered = Some (unwrap_or walk.hindered hold);
    } }
{
    let exclusive = walk.exclusive + 1;
    if hold.hi <= walk.start {
        return Walk { exclusive, ..walk };
    }
    Walk {
        start: hold.hi,
        exclusive,
        hindered: Some(walk.hindered.unwrap_or(hold)),
        ..walk
    }
}
