// Why a place is refused (L1): the first check of a fixed address or of an automatic one that fails, with the lowest object or mapping record that is touched, or the longest free run.
#![tactic(auto)]

ghost use Rattle.std.specs.Prelude.{true, false, ◌≡◌, ◌≤◌, ◌<◌, length};
ghost use Rattle.ranges.specs.Ranges.{U64MAX};
ghost use Rattle.rules_table.specs.Flags.{bit};
ghost use Rattle.rules_table.specs.Spaces.{alignment};
ghost use Rattle.rules_table.specs.Words.{objects_in};
ghost use Rattle.layout_mappings.specs.Words.{records_of};
ghost use Rattle.rules_reasons.specs.Reasons.{object_touched, record_touched};
ghost use Rattle.reason_words.specs.Words.{Tells};
ghost use Rattle.reason_place.specs.Told.{place_reason};

use checks::Errno;
use index_search::Mappings;
use landing::Target;
use layout_objects::{SLOTS, Slot};
use ranges::Range;
use rules_reasons::Reason;

// The mapping records of a table.
const RECORDS: usize = 128;

// The lowest id of an object that reserves an address of r in space s; 0 where none does.
pub fn lowest_object(h: &[u64; 865], s: u32, r: Range) -> u32
    ensures { result ≡ object_touched (objects_in h.now) s r }
{
    for i in 0..SLOTS {
        if reserved_ranges::slot_touched(&Slot { head: h, at: i }, s, r) {
            return (i + 1) as u32;
        }
    }
    0
}

// The lowest number of a mapping record of space s that has an address of r; 0 where none has.
pub fn lowest_record(ws: &[[u64; 5]], s: u32, r: Range) -> u32
    requires { length ws.now ≡ 128 }
    ensures { result ≡ record_touched (records_of ws.now) s r }
{
    for i in 0..RECORDS {
        let m = layout_mappings::record(ws, i);
        if table::is_touched(m, s, r) {
            return (i + 1) as u32;
        }
    }
    0
}

// What is in the way of a fixed address.
fn fixed_reason(h: &[u64; 865], ms: &Mappings, a: u64, t: Target) -> Reason
    requires { 0 < t.space }
    ensures { a ≡ alignment (objects_in h.now) t.space → bit 0 t.flags ≡ true → Tells (place_reason (objects_in h.now) (records_of ms.now.records.now) t) result }
{
    if !alignment::is_fit(a, t.address, t.length) {
        return Reason::Misaligned;
    }
    let r = ranges::span_of(t.address, t.length);
    if reserved_ranges::is_touched(h, t.space, r) {
        return Reason::TouchesReserved(lowest_object(h, t.space, r));
    }
    if ms.is_taken(t.space, r) {
        return Reason::TouchesMapping(lowest_record(ms.records, t.space, r));
    }
    Reason::Accepted
}

// What is in the way of any other: the errno of the place tells, and the run is looked for only where there is none.
fn automatic_reason(h: &[u64; 865], ms: &Mappings, a: u64, t: Target) -> Reason
    requires { (0 < t.space) × (t.length ≤ U64MAX) }
    ensures { a ≡ alignment (objects_in h.now) t.space → bit 0 t.flags ≡ false → Tells (place_reason (objects_in h.now) (records_of ms.now.records.now) t) result }
{
    let allow = layout_objects::object_of(h, t.space).allow;
    let Err(refusal) = landing::place_automatic(h, ms, a, allow, t) else {
        return Reason::Accepted;
    };
    match refusal {
        Errno::EINVAL => Reason::LengthMisaligned,
        _ => Reason::NoPlace(longest_run::longest(h, ms.records, t.space, a, allow)),
    }
}

// What is in the way of a target in a space of alignment a.
pub fn place_reason(h: &[u64; 865], ms: &Mappings, a: u64, t: Target) -> Reason
    requires { (0 < t.space) × (t.length ≤ U64MAX) }
    ensures { a ≡ alignment (objects_in h.now) t.space → Tells (place_reason (objects_in h.now) (records_of ms.now.records.now) t) result }
{
    if opening::is_fixed(t.flags) {
        return fixed_reason(h, ms, a, t);
    }
    automatic_reason(h, ms, a, t)
}
