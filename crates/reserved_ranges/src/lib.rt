// The reserved ranges of one space, read in place: those of each attached device in turn.
#![tactic(auto)]

ghost use Rattle.std.specs.Prelude.{◌≡◌, ◌*◌, ◌≤◌, length, take};
ghost use Rattle.lists.specs.Search.{any};
ghost use Rattle.ranges.specs.Ranges.{share};
ghost use Rattle.rangelists.specs.Listed.{allowed};
ghost use Rattle.rangelists.specs.Held.{ranges_of};
ghost use Rattle.freeranges.specs.Free.{free_from, free_ranges};
ghost use Rattle.freeranges.specs.Scan.{cover_of, run_end, gap_of};
ghost use Rattle.freeranges.specs.Written.{put_ranges};
ghost use Rattle.placement.specs.Jumps.{Swept};
ghost use Rattle.rules_table.specs.Records.{attached_to};
ghost use Rattle.rules_table.specs.Spaces.{reserved_for, reserved_of};
ghost use Rattle.rules_table.specs.Good.{lists_touch};
ghost use Rattle.rules_table.specs.Words.{objects_in};
ghost use Rattle.layout_objects.specs.Slots.{object_in};

use layout_objects::{SLOTS, Slot};
use placement::{Search, Want};
use rangelists::{Allowed, Ranges};
use ranges::{Range, U64MAX};

// Whether an object reserves anything in space s: a device that is attached to it does. Most do not.
fn reserves_in(o: &Slot, s: u32) -> bool
    ensures { result ≡ attached_to s (object_in o.now.head.now o.now.at).kind }
{
    table::attached_to(o.kind(), s)
}

// What an object reserves in space s, where it lies: the ranges of a device that is attached to it, else none.
pub fn reserved_for<'a>(o: &Slot<'a>, s: u32) -> Ranges<'a>
    ensures { ranges_of result ≡ reserved_for s (object_in o.now.head.now o.now.at) }
{
    if !reserves_in(o, s) {
        let none = o.words(0, 0);
        return Ranges {
            starts: none,
            lasts: none,
        };
    }
    o.reserved_in_use()
}

pub fn slot_touched(o: &Slot, s: u32, r: Range) -> bool
    ensures { result ≡ any (share r) (reserved_for s (object_in o.now.head.now o.now.at)) }
{
    reserved_for(o, s).first_touched(0, r).is_some()
}

// Whether a reserved range of space s shares an address with r.
pub fn is_touched(h: &[u64; 865], s: u32, r: Range) -> bool
    ensures { result ≡ any (share r) (reserved_of (objects_in h.now) s) }
{
    for k in 0..SLOTS {
        if slot_touched(&Slot { head: h, at: k }, s, r) {
            return true;
        }
    }
    false
}

fn slot_strays(o: &Slot, s: u32, l: &Ranges) -> bool
    ensures { result ≡ lists_touch (reserved_for s (object_in o.now.head.now o.now.at)) (ranges_of l.now) }
{
    table::ranges_touch(&reserved_for(o, s), l)
}

// Whether a reserved range of space s shares an address with some range of an allow list.
pub fn list_touched(h: &[u64; 865], s: u32, l: Allowed) -> bool
    ensures { result ≡ lists_touch (reserved_of (objects_in h.now) s) (allowed l) }
{
    let list = l.in_use();
    for i in 0..SLOTS {
        if slot_strays(&Slot { head: h, at: i }, s, &list) {
            return true;
        }
    }
    false
}

// One pass over what an object reserves in space s.
fn sweep_slot(o: &Slot, s: u32, w: Want, from: u64) -> Search
    ensures { Swept w.alignment w.length (reserved_for s (object_in o.now.head.now o.now.at)) from result.spot result.jumps }
{
    placement::sweep(&reserved_for(o, s), w, from)
}

// One pass over the reserved ranges of space s.
pub fn sweep(h: &[u64; 865], s: u32, w: Want, from: u64) -> Search
    ensures { Swept w.alignment w.length (reserved_of (objects_in h.now) s) from result.spot result.jumps }
{
    let mut x = from;
    let mut jumps: usize = 0;
    for i in 0..SLOTS {
        let r = sweep_slot(&Slot { head: h, at: i }, s, w, x);
        jumps += r.jumps;
        let Some(y) = r.spot else {
            return Search { spot: None, jumps };
        };
        x = y;
    }
    Search {
        spot: Some(x),
        jumps,
    }
}

// What holds x of what an object reserves in space s.
fn slot_cover(o: &Slot, s: u32, x: u64) -> Option<u64>
    ensures { result ≡ cover_of (reserved_for s (object_in o.now.head.now o.now.at)) x }
{
    freeranges::covering(&reserved_for(o, s), x)
}

// The last of the first reserved range of space s that holds x.
pub fn covering(h: &[u64; 865], s: u32, x: u64) -> Option<u64>
    ensures { result ≡ cover_of (reserved_of (objects_in h.now) s) x }
{
    for i in 0..SLOTS {
        let c = slot_cover(&Slot { head: h, at: i }, s, x);
        if c.is_some() {
            return c;
        }
    }
    None
}

// Where a run of free addresses from x on ends because of what an object reserves in space s.
fn slot_end(o: &Slot, s: u32, x: u64) -> u64
    ensures { result ≡ run_end (reserved_for s (object_in o.now.head.now o.now.at)) x }
{
    freeranges::run_end(&reserved_for(o, s), x)
}

// The last address of the run of free ones that begins at x, where no reserved range of space s holds x.
pub fn run_end(h: &[u64; 865], s: u32, x: u64) -> u64
    ensures { result ≡ run_end (reserved_of (objects_in h.now) s) x }
{
    let mut lowest: u64 = U64MAX;
    for i in 0..SLOTS {
        lowest = lowest.min(slot_end(&Slot { head: h, at: i }, s, x));
    }
    lowest
}

// The first free range of space s from an address on.
pub fn next_free(h: &[u64; 865], s: u32, from: u64) -> Option<Range>
    ensures { result ≡ gap_of (free_from from (reserved_of (objects_in h.now) s)) }
{
    let mut x = from;
    loop {
        match covering(h, s, x) {
            None => {
                return Some(Range {
                    start: x,
                    last: run_end(h, s, x),
                });
            }
            Some(end) => {
                if end == U64MAX {
                    return None;
                }
                x = end + 1;
            }
        }
    }
}

// Counts the free ranges of space s and writes as many as there is room for.
pub fn write_free(h: &[u64; 865], s: u32, room: usize, area: &mut [u8]) -> usize
    requires { 16 * room ≤ length area.old }
    ensures { (result ≡ length (free_ranges (reserved_of (objects_in h.now) s)))
        × (area.new ≡ put_ranges 0 (take room (free_ranges (reserved_of (objects_in h.now) s))) area.old) }
{
    let mut x: u64 = 0;
    let mut k: usize = 0;
    loop {
        let Some(free) = next_free(h, s, x) else {
            return k;
        };
        freeranges::put_range(area, k, room, free.start, free.last);
        k += 1;
        if free.last == U64MAX {
            return k;
        }
        x = free.last + 1;
    }
}
