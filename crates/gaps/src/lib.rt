// The gaps of a space, by one walk over its mappings in the order of the index. The reserved ranges are asked where no mapping is in the way.
#![tactic(auto)]

ghost use Rattle.std.specs.Prelude.{◌≡◌, [], ◌∷◌, ◌+◌, ◌-◌, ◌≤◌, ◌<◌, length, get_or, take};
ghost use Rattle.ranges.specs.Ranges.{U64MAX, last_of};
ghost use Rattle.placement.specs.Candidates.{place_of};
ghost use Rattle.placement.specs.Jumps.{past_of};
ghost use Rattle.rules_table.specs.Records.{zero_mapping, extent};
ghost use Rattle.rules_table.specs.Spaces.{reserved_of};
ghost use Rattle.rules_table.specs.Words.{objects_in};
ghost use Rattle.rules_calls.specs.Landing.{blocked_in};
ghost use Rattle.rules_index.specs.Index.{view};
ghost use Rattle.layout_mappings.specs.Words.{records_of, record_at};
ghost use Rattle.gaps.specs.Steps.{begins_by, meets, Stands, Stepped};

use index_search::Mappings;
use placement::{Search, Want};
use ranges::Range;

// Where one step of the walk leads: an address, a place in the index, and how many ranges it left behind.
#[derive(Clone, Copy)]
struct Step {
    spot: Option<u64>,
    place: usize,
    jumps: usize,
}

// ---- a mapping of the index

// The slot of the mapping at place k.
fn slot_of(m: &Mappings, k: usize) -> usize
    requires { k < m.now.listed }
    ensures { (record_at m.now.records.now result ≡ get_or (view (take m.now.listed m.now.index.now) (records_of m.now.records.now)) k zero_mapping)
        × (result < length m.now.records.now) }
{
    index_search::slot_at(m.index, k)
}

fn extent_at(ws: &[[u64; 5]], i: usize) -> Range
    requires { i < length ws.now }
    ensures { result ≡ extent (record_at ws.now i) }
{
    ranges::span_of(layout_mappings::address_at(ws, i), ws[i][3])
}

// Whether the record in a slot is of space s and begins at or before address x.
#[tactic(auto, unfolding(crate::specs::Steps::begins_by, rules_table::specs::Records::of_space))]
fn begins_by(ws: &[[u64; 5]], i: usize, s: u32, x: u64) -> bool
    requires { i < length ws.now }
    ensures { result ≡ begins_by s x (record_at ws.now i) }
{
    layout_mappings::space_at(ws, i) == s && layout_mappings::address_at(ws, i) <= x
}

// Whether there is such a mapping at place k.
fn is_met(m: &Mappings, k: usize, s: u32, x: u64) -> bool
    ensures { result ≡ meets (view (take m.now.listed m.now.index.now) (records_of m.now.records.now)) k s x }
{
    k < m.listed && begins_by(m.records, slot_of(m, k), s, x)
}

// ---- the walk

// Where the walk from address x goes in: at the last mapping that begins at or before it, where that is one of the space, else behind it.
fn entry_of(m: &Mappings, s: u32, x: u64) -> usize
    ensures { Stands (view (take m.now.listed m.now.index.now) (records_of m.now.records.now)) s x result }
{
    let p = m.count_entered(true, s, x);
    if 0 < p && layout_mappings::space_at(m.records, slot_of(m, p - 1)) == s {
        return p - 1;
    }
    p
}

// The next place from x on at which a range that begins by the last of the bytes is not touched. Whether it is touched, its last address alone tells.
fn past_met(w: Want, x: u64, q: Range) -> Option<u64>
    requires { (q.start ≤ q.last) × (q.start ≤ last_of x w.length) }
    ensures { result ≡ past_of w.alignment w.length x q }
{
    if q.last < x {
        return Some(x);
    }
    if q.last == ranges::U64MAX {
        return None;
    }
    alignment::lowest_multiple(w.alignment, q.last + 1)
}

// One step from an address with room: past the mapping at place k where the bytes from x on meet it, else past the reserved ranges that they touch.
fn go_on(h: &[u64; 865], m: &Mappings, s: u32, w: Want, x: u64, k: usize) -> Step
    requires { x + (w.length - 1) ≤ U64MAX }
    ensures { Stepped w.alignment w.length s (view (take m.now.listed m.now.index.now) (records_of m.now.records.now)) (reserved_of (objects_in h.now) s) x k
        result.spot result.place result.jumps }
{
    let last = x + placement::behind(w.length);
    if is_met(m, k, s, last) {
        let spot = past_met(w, x, extent_at(m.records, slot_of(m, k)));
        return Step {
            spot,
            place: k + 1,
            jumps: 1,
        };
    }
    let f = reserved_ranges::sweep(h, s, w, x);
    Step {
        spot: f.spot,
        place: k,
        jumps: f.jumps,
    }
}

// The lowest place in one window. Each mapping of the space and each reserved range is left behind at most once.
pub fn gap_in(h: &[u64; 865], m: &Mappings, s: u32, w: Want, window: Range) -> Search
    ensures { (0 < s → result.spot ≡ (place_of w.alignment w.length w.low
        (blocked_in (objects_in h.now) (records_of m.now.records.now) s) (window ∷ [])))
        × (result.jumps ≤ length (blocked_in (objects_in h.now) (records_of m.now.records.now) s)) }
{
    let first = alignment::lowest_multiple(w.alignment, w.low.max(window.start));
    let Some(start) = first else {
        return Search {
            spot: None,
            jumps: 0,
        };
    };
    let mut x = start;
    let mut k = entry_of(m, s, start);
    let mut jumps: usize = 0;
    loop {
        if !placement::has_room(w.length, x, window) {
            return Search { spot: None, jumps };
        }
        let r = go_on(h, m, s, w, x, k);
        jumps += r.jumps;
        let Some(y) = r.spot else {
            return Search { spot: None, jumps };
        };
        if y == x && r.place == k {
            return Search {
                spot: Some(x),
                jumps,
            };
        }
        x = y;
        k = r.place;
    }
}
