// The sectors at which runs in use begin and end, in rising order.
//
// The free runs lie between them: from 0 to the first, from the second to the third, and so on, the last
// without an end. Where two runs in use meet there is no edge, so neighbouring runs are one.
ghost use Rattle.std.specs.Prelude.{◌≡◌, ◌+◌, ◌*◌, ◌<◌, ◌≤◌, [], ◌∷◌, All, Some, filter, get_or, length, slice_get};
ghost use Rattle.std.specs.Prelude.{true, vec_len};
ghost use Rattle.std.specs.Vec.{vec_capacity};
ghost use Rattle.space_alloc.specs.Edges.{HasReleased, IsFlipped, IsRising};
ghost use Rattle.space_alloc.specs.Entries.{IsEntry, is_left};

use crate::held::HeldEntry;

/// What lies between the two sectors was free and is in use from now on, or the other way round. Where a run grows or
/// shrinks at one of its ends, the edge that stands there moves, and no other is shifted.
pub fn flip_run(edges: &mut Vec<u64>, start: u64, end: u64)
    requires rising { IsRising edges.old.items }
    requires room { vec_len edges.old + 2 ≤ vec_capacity edges.old }
    ensures rising { IsRising edges.new.items }
    ensures flipped { IsFlipped edges.old.items edges.new.items (start ∷ end ∷ []) }
    ensures len { vec_len edges.new ≤ vec_len edges.old + 2 }
    ensures capacity { vec_capacity edges.new ≡ vec_capacity edges.old }
{
    match edges.binary_search(&start) {
        Ok(at) => {
            if start < end && is_below_edge(edges, at + 1, end) {
                edges[at] = end;
                return;
            }
        }
        Err(at) => {
            if is_edge(edges, at, end) {
                edges[at] = start;
                return;
            }
        }
    }
    flip(edges, start);
    flip(edges, end);
}

/// Whether the edge of this place stands above a sector, if there is one.
fn is_below_edge(edges: &[u64], at: usize, sector: u64) -> bool
    ensures { result ≡ true → at < length edges.now → sector < get_or edges.now at 0 }
{
    match edges.get(at) {
        Some(edge) => sector < *edge,
        None => true,
    }
}

/// Whether the edge of this place stands at a sector.
fn is_edge(edges: &[u64], at: usize, sector: u64) -> bool
    ensures { result ≡ true → slice_get edges.now at ≡ Some sector }
{
    match edges.get(at) {
        Some(edge) => *edge == sector,
        None => false,
    }
}

/// The runs that are held until this group or an earlier one are free from now on.
pub fn flip_until(edges: &mut Vec<u64>, held: &[HeldEntry], group: u64)
    requires entries { All (λ run. IsEntry run.entry) held.now }
    requires rising { IsRising edges.old.items }
    requires room { vec_len edges.old + 2 * length held.now ≤ vec_capacity edges.old }
    ensures released { HasReleased held.now (filter (is_left group) held.now) edges.old edges.new }
{
    for run in held {
        if !run.is_left(group) {
            flip_run(edges, run.entry.start, run.entry.end());
        }
    }
}

/// Puts the sector in, or takes it out where it is there.
fn flip(edges: &mut Vec<u64>, sector: u64)
    requires rising { IsRising edges.old.items }
    requires room { vec_len edges.old < vec_capacity edges.old }
    ensures rising { IsRising edges.new.items }
    ensures flipped { IsFlipped edges.old.items edges.new.items (sector ∷ []) }
    ensures len { vec_len edges.new ≤ vec_len edges.old + 1 }
    ensures capacity { vec_capacity edges.new ≡ vec_capacity edges.old }
{
    match edges.binary_search(&sector) {
        Ok(at) => {
            edges.remove(at);
        }
        Err(at) => match edges.insert(at, sector) {
            Ok(()) => {}
            Err(_) => unreachable!(),
        },
    }
}
