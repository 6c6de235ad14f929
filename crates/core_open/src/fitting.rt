// Whether an index fits the uberblock that it belongs to.
ghost use Rattle.std.specs.Prelude.{◌≡◌, ◌↔◌, ◌<◌, ◌≤◌, ◌^◌, All, AllPairs, map, IfOk, IfNone, IfSome, IsTrue, OnSome};
ghost use Rattle.std.specs.Prelude.{SomeIff};
ghost use Rattle.block_record.specs.Page.{IsIndex, IsRightEntry};
ghost use Rattle.uberblock_ring.specs.Valid.{IsRightUber};
ghost use Rattle.core_state.specs.Index.{IsFitting};
ghost use Rattle.core_open.specs.Spans.{AreDisjoint, AreByStart, FitsAlone, IsFilled, span_of};

use block_record::IndexEntry;
use row_layout::Layout;
use std::alloc::{AllocError, Global};
use uberblock_ring::Uber;
use width_map::width_at;

/// The sectors of the pool that a block takes, up to before `end`.
#[derive(Clone, Copy)]
pub(crate) struct Span {
    start: u64,
    end: u64,
}

/// Whether an index fits its uberblock: no birth after its group, no block past its sectors, none
/// over another.
pub(crate) fn is_fitting(
    alloc: Global,
    uber: &Uber,
    entries: &[IndexEntry],
) -> Result<bool, AllocError>
    requires right { IsRightUber uber.now }
    requires index { IsIndex entries.now }
    ensures value { IfOk result (λ fits. IsTrue fits ↔ IsFitting uber.now entries.now) }
{
    match spans_of(alloc, uber, entries)? {
        Some(spans) => Ok(are_clear(spans)),
        None => Ok(false),
    }
}

/// The spans of all blocks, in their order, where each alone fits the uberblock.
fn spans_of(
    alloc: Global,
    uber: &Uber,
    entries: &[IndexEntry],
) -> Result<Option<Vec<Span>>, AllocError>
    requires right { IsRightUber uber.now }
    requires index { All IsRightEntry entries.now }
    ensures some { IfOk result (λ found. IfSome found (λ spans.
        spans.items ≡ map (span_of uber.now) entries.now)) }
    ensures filled { IfOk result (λ found. IfSome found (λ spans. All IsFilled spans.items)) }
    ensures alone { IfOk result (λ found. OnSome found (All (FitsAlone uber.now) entries.now)) }
    ensures none { IfOk result (λ found. IfNone found (All (FitsAlone uber.now) entries.now → ⊥)) }
{
    let mut spans = Vec::with_capacity(alloc, entries.len())?;
    for entry in entries {
        match span_of(uber, entry) {
            Some(span) => spans.push(span)?,
            None => return Ok(None),
        }
    }
    Ok(Some(spans))
}

/// The span of a block that alone fits the uberblock.
fn span_of(uber: &Uber, entry: &IndexEntry) -> Option<Span>
    requires right { IsRightUber uber.now }
    requires entry { IsRightEntry entry.now }
    ensures value { SomeIff result (FitsAlone uber.now entry.now) (span_of uber.now entry.now) }
    ensures filled { IfSome result IsFilled }
{
    let sectors = uber.reflow().sectors();
    // A start may be any number. Past the sectors it is refused before its end is computed.
    if entry.birth > uber.group() || entry.start >= sectors {
        return None;
    }
    let width = width_at(uber.births(), entry.birth);
    let layout = Layout::of(entry.start, (entry.len + 511) / 512, uber.parity(), width);
    let end = entry.start + layout.alloc_size();
    if end > sectors {
        return None;
    }
    Some(Span {
        start: entry.start,
        end,
    })
}

/// Whether no span reaches into another. Sorted by their starts, each has to end before the next.
fn are_clear(mut spans: Vec<Span>) -> bool
    requires filled { All IsFilled spans.items }
    ensures value { IsTrue result ↔ AllPairs AreDisjoint spans.items }
{
    spans.sort_unstable_by_key(|span| span.start);
    follow_each_other(&spans)
}

/// Whether each span begins at the end of the one before, or after it.
fn follow_each_other(spans: &[Span]) -> bool
    requires filled { All IsFilled spans.now }
    requires sorted { AreByStart spans.now }
    ensures value { IsTrue result ↔ AllPairs AreDisjoint spans.now }
{
    let mut end = 0;
    for span in spans {
        if span.start < end {
            return false;
        }
        end = span.end;
    }
    true
}
