// Where a new mapping lands: at the address asked, or at the lowest candidate.
#![tactic(auto)]

ghost use Rattle.std.specs.Prelude.{true, false, List, ◌≡◌, ℕ, ◌*◌, ◌≤◌, ◌<◌, length};
ghost use Rattle.lists.specs.Checks.{first};
ghost use Rattle.lists.specs.Search.{any};
ghost use Rattle.ranges.specs.Ranges.{span, share};
ghost use Rattle.rules_table.specs.Flags.{bit};
ghost use Rattle.rangelists.specs.Listed.{allowed};
ghost use Rattle.placement.specs.Candidates.{place_of};
ghost use Rattle.placement.specs.Jumps.{in_windows, windows_of};
ghost use Rattle.rules_table.specs.declared.Object.{Object};
ghost use Rattle.rules_table.specs.declared.Mapping.{Mapping};
ghost use Rattle.rules_table.specs.Records.{object_at};
ghost use Rattle.rules_table.specs.Words.{objects_in};
ghost use Rattle.layout_mappings.specs.Words.{records_of};
ghost use Rattle.rules_table.specs.Spaces.{reserved_of, alignment};
ghost use Rattle.rules_calls.specs.Landing.{blocked_in, taken, fixed_checks};
ghost use Rattle.checks.specs.Refused.{refused};
ghost use Rattle.landing.specs.Placing.{Placed, placing_of, AutomaticPlaced};

use checks::{Errno, fail_if};
use index_search::Mappings;
use placement::{Search, Want};
use rangelists::Allowed;
use ranges::EVERYWHERE;
use rules_table::Mapping;

// The lowest address that an automatic mapping may get.
const LOWEST_TRIED: u64 = 0;

// What MAP and COPY ask of a place: so many bytes in a space, at the address where the flags say that it is fixed.
#[derive(Clone, Copy)]
pub struct Target {
    pub space: u32,
    pub flags: u32,
    pub length: u64,
    pub address: u64,
}

// The checks of a fixed address in a space of alignment a. Whether it touches a reserved range or a mapping, the caller has asked.
#[tactic(auto, unfolding(lists::specs::Checks::first, rules_calls::specs::Landing::fixed_checks))]
fn check_fixed(a: u64, n: u64, x: u64, reserved: bool, mapped: bool) -> Result<(), Errno>
    ensures { (os : List Object) (s : ℕ) → a ≡ alignment os s → reserved ≡ any (share (span x n)) (reserved_of os s)
        → refused result ≡ first (fixed_checks os s n x mapped) 0 }
{
    fail_if(!alignment::is_fit(a, x, n), Errno::EINVAL)?;
    fail_if(reserved, Errno::EINVAL)?;
    fail_if(mapped, Errno::EEXIST)
}

// What was found, as an address or a refusal.
fn placing_of(spot: Option<u64>) -> Result<u64, Errno>
    ensures { result ≡ placing_of spot }
{
    spot.ok_or(Errno::ENOSPC)
}

// The lowest place in one of the ranges of an allow list.
fn search_each(h: &[u64; 865], ms: &Mappings, s: u32, w: Want, allow: Allowed) -> Search
    ensures { (0 < s → result.spot ≡ in_windows w.alignment w.length w.low
        (blocked_in (objects_in h.now) (records_of ms.now.records.now) s) (allowed allow))
        × (result.jumps ≤ length (allowed allow) * length (blocked_in (objects_in h.now) (records_of ms.now.records.now) s)) }
{
    let windows = allow.in_use();
    let mut best = None;
    let mut jumps: usize = 0;
    for i in 0..windows.len() {
        let r = gaps::gap_in(h, ms, s, w, windows.at(i));
        jumps += r.jumps;
        best = placement::lower_spot(best, r.spot);
    }
    Search { spot: best, jumps }
}

// The lowest candidate: a multiple of the alignment from which the whole length ends by U64MAX, touches nothing that is blocked, and lies in one
// single range of the allow list, where that list is not empty.
fn place(h: &[u64; 865], ms: &Mappings, s: u32, allow: Allowed, w: Want) -> Search
    ensures { (0 < s → result.spot ≡ (place_of w.alignment w.length w.low
        (blocked_in (objects_in h.now) (records_of ms.now.records.now) s) (allowed allow)))
        × (result.jumps ≤ windows_of (allowed allow) * length (blocked_in (objects_in h.now) (records_of ms.now.records.now) s)) }
{
    if allow.count == 0 {
        return gaps::gap_in(h, ms, s, w, EVERYWHERE);
    }
    search_each(h, ms, s, w, allow)
}

// The lowest candidate for so many bytes in space s, of alignment a, inside the allow list.
fn automatic_place(
    h: &[u64; 865],
    ms: &Mappings,
    s: u32,
    a: u64,
    allow: Allowed,
    bytes: u64,
) -> Result<u64, Errno>
    ensures { 0 < s → a ≡ alignment (objects_in h.now) s → allow ≡ (object_at (objects_in h.now) s).allow
        → AutomaticPlaced (objects_in h.now) (records_of ms.now.records.now) s bytes result }
{
    if !alignment::is_multiple(a, bytes) {
        return Err(Errno::EINVAL);
    }
    let w = Want {
        alignment: a,
        length: bytes,
        low: LOWEST_TRIED,
    };
    let found = place(h, ms, s, allow, w);
    placing_of(found.spot)
}

// The place of a target with a fixed address. `reserved` and `mapped` tell what the range asked touches.
pub fn place_fixed(a: u64, t: Target, reserved: bool, mapped: bool) -> Result<u64, Errno>
    ensures { (os : List Object) (ms : List Mapping) → bit 0 t.flags ≡ true → a ≡ alignment os t.space
        → reserved ≡ any (share (span t.address t.length)) (reserved_of os t.space)
        → mapped ≡ taken ms t.space t.length t.address → Placed os ms t result }
{
    check_fixed(a, t.length, t.address, reserved, mapped)?;
    Ok(t.address)
}

// The place of any other target, in a space with this alignment and allow list.
pub fn place_automatic(
    h: &[u64; 865],
    ms: &Mappings,
    a: u64,
    allow: Allowed,
    t: Target,
) -> Result<u64, Errno>
    ensures { 0 < t.space → bit 0 t.flags ≡ false → a ≡ alignment (objects_in h.now) t.space
        → allow ≡ (object_at (objects_in h.now) t.space).allow
        → Placed (objects_in h.now) (records_of ms.now.records.now) t result }
{
    automatic_place(h, ms, t.space, a, allow, t.length)
}
