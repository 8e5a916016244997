// The longest free run of a space, over the table as it lies in memory: no list of what is blocked is made. Each start that a longest run can have is tried.
#![tactic(auto)]

ghost use Rattle.std.specs.Prelude.{◌≡◌, ◌+◌, ◌<◌, length, Option, Some, None};
ghost use Rattle.ranges.specs.Ranges.{U64MAX};
ghost use Rattle.rangelists.specs.Listed.{allowed};
ghost use Rattle.runs.specs.Runs.{free_to, run_from, over, past_range, in_window};
ghost use Rattle.rules_table.specs.Records.{object_at};
ghost use Rattle.rules_table.specs.Spaces.{alignment, reserved_for, reserved_of};
ghost use Rattle.rules_table.specs.Words.{objects_in};
ghost use Rattle.layout_objects.specs.Slots.{object_in};
ghost use Rattle.rules_calls.specs.Landing.{blocked_in, lowest_tried};
ghost use Rattle.rules_reasons.specs.Reasons.{longest_in};
ghost use Rattle.layout_mappings.specs.Words.{records_of, record_at};
ghost use Rattle.longest_run.specs.Parts.{extent_for, extents_of};

use layout_objects::{SLOTS, Slot};
use rangelists::Allowed;
use ranges::{Range, U64MAX};
use runs::Run;

// The lowest address that an automatic mapping may get.
const LOWEST_TRIED: u64 = 0;

// ---- where the free addresses from x on end

// What is free up to e is free up to the answer in view of what an object reserves in space s.
fn free_slot(o: &Slot, s: u32, e: u64, x: u64) -> Option<u64>
    ensures { result ≡ free_to e x (reserved_for s (object_in o.now.head.now o.now.at)) }
{
    runs::free_to(&reserved_ranges::reserved_for(o, s), e, x)
}

// The same for all slots.
fn free_reserved(h: &[u64; 865], s: u32, x: u64) -> Option<u64>
    ensures { result ≡ free_to U64MAX x (reserved_of (objects_in h.now) s) }
{
    let mut e = U64MAX;
    for k in 0..SLOTS {
        e = free_slot(&Slot { head: h, at: k }, s, e, x)?;
    }
    Some(e)
}

// The same for the mapping in record i, where it is of space s.
fn free_record(ws: &[[u64; 5]], i: usize, s: u32, e: u64, x: u64) -> Option<u64>
    requires { i < length ws.now }
    ensures { result ≡ free_to e x (extent_for s (record_at ws.now i)) }
{
    let m = layout_mappings::record(ws, i);
    if m.space != s {
        return Some(e);
    }
    let q = ranges::span_of(m.address, m.length);
    let here = Range { start: x, last: x };
    if ranges::shares(here, q) {
        return None;
    }
    Some(runs::cut_at(e, x, q))
}

// The same for all mappings of space s.
fn free_mapped(ws: &[[u64; 5]], s: u32, upto: u64, x: u64) -> Option<u64>
    ensures { result ≡ free_to upto x (extents_of (records_of ws.now) s) }
{
    let mut e = upto;
    for i in 0..ws.len() {
        e = free_record(ws, i, s, e, x)?;
    }
    Some(e)
}

// The last address such that all from x on are free in space s; nowhere, where x is not.
fn free_from<'a>(h: &'a [u64; 865], ws: &'a [[u64; 5]], s: u32, x: u64) -> Option<u64>
    ensures { result ≡ free_to U64MAX x (blocked_in (objects_in h.now) (records_of ws.now) s) }
{
    let upto = free_reserved(h, s, x)?;
    free_mapped(ws, s, upto, x)
}

// ---- the run from a start

// The longest run in the window that starts at the lowest multiple from u on. The window is asked first: nearly every start lies in one only.
fn run_from<'a>(
    h: &'a [u64; 865],
    ws: &'a [[u64; 5]],
    s: u32,
    a: u64,
    window: Range,
    u: u64,
) -> Option<Run>
    ensures { result ≡ run_from a lowest_tried (blocked_in (objects_in h.now) (records_of ws.now) s) window u }
{
    let x = alignment::lowest_multiple(a, u)?;
    if x < window.start || window.last < x {
        return None;
    }
    let z = free_from(h, ws, s, x)?;
    Some(Run {
        start: x,
        more: z.min(window.last) - x,
    })
}

// The same past a range that ends at `last`.
fn run_past<'a>(
    h: &'a [u64; 865],
    ws: &'a [[u64; 5]],
    s: u32,
    a: u64,
    window: Range,
    last: u64,
) -> Option<Run>
    ensures { result ≡ run_from a lowest_tried (blocked_in (objects_in h.now) (records_of ws.now) s) window (last + 1) }
{
    if last == U64MAX {
        return None;
    }
    run_from(h, ws, s, a, window, last + 1)
}

// ---- the starts past what is blocked

// The best of what was best before and the runs past what an object reserves in space s.
fn past_slot<'a>(
    o: &Slot<'a>,
    ws: &'a [[u64; 5]],
    s: u32,
    a: u64,
    window: Range,
    before: Option<Run>,
) -> Option<Run>
    ensures { result ≡ over (past_range a lowest_tried (blocked_in (objects_in o.now.head.now) (records_of ws.now) s) window) before
        (reserved_for s (object_in o.now.head.now o.now.at)) }
{
    let l = reserved_ranges::reserved_for(o, s);
    let mut best = before;
    for k in 0..l.len() {
        let past = run_past(o.head, ws, s, a, window, l.at(k).last);
        best = runs::better_of(best, past);
    }
    best
}

// The same for all slots.
fn past_reserved<'a>(
    h: &'a [u64; 865],
    ws: &'a [[u64; 5]],
    s: u32,
    a: u64,
    window: Range,
    before: Option<Run>,
) -> Option<Run>
    ensures { result ≡ over (past_range a lowest_tried (blocked_in (objects_in h.now) (records_of ws.now) s) window) before
        (reserved_of (objects_in h.now) s) }
{
    let mut best = before;
    for i in 0..SLOTS {
        best = past_slot(&Slot { head: h, at: i }, ws, s, a, window, best);
    }
    best
}

// The same for the mapping in record i, where it is of space s.
fn past_record<'a>(
    h: &'a [u64; 865],
    ws: &'a [[u64; 5]],
    s: u32,
    a: u64,
    window: Range,
    i: usize,
    before: Option<Run>,
) -> Option<Run>
    requires { i < length ws.now }
    ensures { result ≡ over (past_range a lowest_tried (blocked_in (objects_in h.now) (records_of ws.now) s) window) before
        (extent_for s (record_at ws.now i)) }
{
    let m = layout_mappings::record(ws, i);
    if m.space != s {
        return before;
    }
    let q = ranges::span_of(m.address, m.length);
    let past = run_past(h, ws, s, a, window, q.last);
    runs::better_of(before, past)
}

// The same for all mappings of space s.
fn past_mapped<'a>(
    h: &'a [u64; 865],
    ws: &'a [[u64; 5]],
    s: u32,
    a: u64,
    window: Range,
    before: Option<Run>,
) -> Option<Run>
    ensures { result ≡ over (past_range a lowest_tried (blocked_in (objects_in h.now) (records_of ws.now) s) window) before
        (extents_of (records_of ws.now) s) }
{
    let mut best = before;
    for k in 0..ws.len() {
        best = past_record(h, ws, s, a, window, k, best);
    }
    best
}

// ---- the windows

// The best in one window, or what was best before.
fn in_window<'a>(
    h: &'a [u64; 865],
    ws: &'a [[u64; 5]],
    s: u32,
    a: u64,
    window: Range,
    before: Option<Run>,
) -> Option<Run>
    ensures { result ≡ in_window a lowest_tried (blocked_in (objects_in h.now) (records_of ws.now) s) before window }
{
    let lowest = run_from(h, ws, s, a, window, LOWEST_TRIED);
    let first = run_from(h, ws, s, a, window, window.start);
    let better = runs::better_of(before, lowest);
    let best = runs::better_of(better, first);
    let past = past_reserved(h, ws, s, a, window, best);
    past_mapped(h, ws, s, a, window, past)
}

// The best in the ranges of an allow list.
fn in_list<'a>(h: &'a [u64; 865], ws: &'a [[u64; 5]], s: u32, a: u64, allow: Allowed) -> Option<Run>
    ensures { result ≡ over (in_window a lowest_tried (blocked_in (objects_in h.now) (records_of ws.now) s)) None (allowed allow) }
{
    let windows = allow.in_use();
    let mut best = None;
    for i in 0..windows.len() {
        best = in_window(h, ws, s, a, windows.at(i), best);
    }
    best
}

// The longest free run of space s, of alignment a: inside one range of the allow list, where that list is not empty.
pub fn longest<'a>(
    h: &'a [u64; 865],
    ws: &'a [[u64; 5]],
    s: u32,
    a: u64,
    allow: Allowed,
) -> Option<Run>
    ensures { a ≡ alignment (objects_in h.now) s → allow ≡ (object_at (objects_in h.now) s).allow
        → result ≡ longest_in (objects_in h.now) (records_of ws.now) s }
{
    if allow.count == 0 {
        let window = ranges::EVERYWHERE;
        return in_window(h, ws, s, a, window, None);
    }
    in_list(h, ws, s, a, allow)
}
