// What MAP decides over a good table: the numbers of the command first, then the place, then the room that the check found. COPY shares the parts of a new mapping.
#![tactic(auto)]

ghost use Rattle.std.specs.Prelude.{List, ◌≡◌, ℕ, ◌+◌, ◌≤◌, ◌<◌, length};
ghost use Rattle.lists.specs.Tests.{only_if};
ghost use Rattle.lists.specs.Checks.{first};
ghost use Rattle.rules_table.specs.declared.Object.{Object};
ghost use Rattle.rules_table.specs.Records.{space_at};
ghost use Rattle.table.specs.Checked.{page_at};
ghost use Rattle.rules_table.specs.Spaces.{alignment};
ghost use Rattle.rules_table.specs.Words.{head_in, objects_in};
ghost use Rattle.layout_mappings.specs.Words.{records_of};
ghost use Rattle.check_mappings.specs.Told.{Told};
ghost use Rattle.checks.specs.Refused.{refused};
ghost use Rattle.edits.specs.Settled.{decided};
ghost use Rattle.landing.specs.Placing.{Placed};
ghost use Rattle.rules_calls.specs.Edits.{number_in};
ghost use Rattle.rules_calls.specs.Map.{rights_of, mapped, no_right, wrong_length, fixed_passes, room_checks, over_limit, found_of};
ghost use Rattle.edits.specs.Numbers.{map_number_checks_at, map_edit_at};

use check_mappings::Pass;
use checks::{Errno, fail_if};
use index_search::Mappings;
use landing::Target;
use rules_calls::{Change, Edit};
use rules_table::Mapping;

// ---- the parts of a new mapping

fn one_if(b: bool, n: u32) -> u32
    ensures { (result ≡ only_if b n) × (result ≤ n) }
{
    if b { n } else { 0 }
}

// Bit 0 write, bit 1 read.
#[tactic(auto, unfolding(rules_calls::specs::Map::rights_of))]
pub fn rights_of(flags: u32) -> u32
    ensures { result ≡ rights_of flags }
{
    one_if(opening::is_writeable(flags), 1) + one_if(opening::is_readable(flags), 2)
}

// The number that was found, 0 where none was.
fn number_in(f: Option<usize>) -> u32
    requires { number_in f ≤ 128 }
    ensures { result ≡ number_in f }
{
    f.unwrap_or(0) as u32
}

// A mapping in the lowest free record, with its address as the reply.
pub fn put_new(free: Option<usize>, m: Mapping) -> Edit
    ensures { result ≡ mapped free m }
{
    let Some(i) = free else {
        return edits::refusal(Errno::ENOMEM.number());
    };
    edits::acceptance(m.address, Change::Map(i, m), edits::free_object())
}

// ---- checks that MAP and COPY share

#[tactic(auto, unfolding(rules_calls::specs::Map::no_right))]
pub fn has_no_right(flags: u32) -> bool
    ensures { result ≡ no_right flags }
{
    !(opening::is_writeable(flags) || opening::is_readable(flags))
}

#[tactic(auto, unfolding(rules_calls::specs::Map::wrong_length))]
pub fn is_wrong_length(n: u64) -> bool
    ensures { result ≡ wrong_length n }
{
    n == 0 || 0x100_0000_0000 < n
}

#[tactic(auto, unfolding(rules_calls::specs::Map::fixed_passes))]
pub fn fixed_passes(flags: u32, x: u64, n: u64) -> bool
    ensures { result ≡ fixed_passes flags x n }
{
    opening::is_fixed(flags) && ranges::passes_max(x, n)
}

// The place of a target in a space of alignment a. What the range asked touches is asked for a fixed address alone.
pub fn place_in(h: &[u64; 865], ms: &Mappings, a: u64, t: Target) -> Result<u64, Errno>
    requires { 0 < t.space }
    ensures { a ≡ alignment (objects_in h.now) t.space → Placed (objects_in h.now) (records_of ms.now.records.now) t result }
{
    if opening::is_fixed(t.flags) {
        let r = ranges::span_of(t.address, t.length);
        let reserved = reserved_ranges::is_touched(h, t.space, r);
        let touched = ms.is_taken(t.space, r);
        return landing::place_fixed(a, t, reserved, touched);
    }
    let allow = layout_objects::object_of(h, t.space).allow;
    landing::place_automatic(h, ms, a, allow, t)
}

// ---- MAP

// The numbers of the command, and the space.
#[tactic(auto, unfolding(lists::specs::Checks::first, rules_calls::specs::Map::map_number_checks))]
fn check_numbers(known: bool, t: Target, zero: u32, memory: u64) -> Result<(), Errno>
    ensures { (os : List Object) → known ≡ space_at os t.space → refused result ≡ first (map_number_checks_at os t.flags t.space zero memory t.length t.address) 0 }
{
    fail_if(
        opening::has_unknown(t.flags) || zero != 0,
        Errno::EOPNOTSUPP,
    )?;
    fail_if(has_no_right(t.flags), Errno::EINVAL)?;
    fail_if(is_wrong_length(t.length), Errno::EINVAL)?;
    fail_if(ranges::passes_max(memory, t.length), Errno::EOVERFLOW)?;
    fail_if(fixed_passes(t.flags, t.address, t.length), Errno::EOVERFLOW)?;
    fail_if(!known, Errno::ENOENT)
}

// Whether so many pages more would pass the limit. No sum is made.
pub fn over_limit(limit: u64, charge: u64, pages: u64) -> bool
    ensures { result ≡ over_limit limit charge pages }
{
    if limit < charge {
        return true;
    }
    if limit - charge < pages {
        return true;
    }
    false
}

// A free record, and the charge within the limit.
#[tactic(auto, unfolding(lists::specs::Checks::first, rules_calls::specs::Map::room_checks))]
fn check_room(free: Option<usize>, limit: u64, charge: u64, pages: u64) -> Result<(), Errno>
    ensures { refused result ≡ first (room_checks free limit charge pages) 0 }
{
    fail_if(free.is_none(), Errno::ENOMEM)?;
    fail_if(over_limit(limit, charge, pages), Errno::ENOMEM)
}

// The mapping that a MAP founds, at an address.
#[tactic(auto, unfolding(rules_calls::specs::Map::found_of))]
fn founded(backing: u32, t: Target, memory: u64, address: u64) -> Mapping
    ensures { result ≡ found_of backing t.flags t.space memory t.length address }
{
    Mapping {
        space: t.space,
        rights: rights_of(t.flags),
        founder: one_if(opening::is_writeable(t.flags), 1),
        backing,
        address,
        length: t.length,
        memory,
    }
}

// The edit, or the first check that fires: the numbers of the command, the place, the room.
fn mapped_in(
    h: &[u64; 865],
    ms: &Mappings,
    p: Pass,
    marks: &[u8],
    a: u64,
    t: Target,
    zero: u32,
    memory: u64,
) -> Result<Edit, Errno>
    requires { (length marks.now ≡ 129) × (0 < a → 0 < t.space) × ((pages : List ℕ) × Told pages (records_of ms.now.records.now) p marks.now) }
    ensures { a ≡ page_at (objects_in h.now) t.space → decided result ≡ map_edit_at (head_in h.now).limit (objects_in h.now) (records_of ms.now.records.now) t.flags t.space zero memory t.length t.address }
{
    check_numbers(a != 0, t, zero, memory)?;
    let address = place_in(h, ms, a, t)?;
    let v = scan::survey_of(ms.records, p, marks);
    let pages = ranges::pages_touched(memory, t.length);
    check_room(v.free, layout_objects::limit_of(h), v.charge, pages)?;
    let mapping = founded(number_in(v.backing), t, memory, address);
    Ok(put_new(v.free, mapping))
}

// What the check found: p of the mapping records, with the marks of their backings, and a, the alignment of the target's space, 0 where it is no space.
pub fn decide_map(
    h: &[u64; 865],
    ms: &Mappings,
    p: Pass,
    marks: &[u8],
    a: u64,
    t: Target,
    zero: u32,
    memory: u64,
) -> Edit
    requires { (length marks.now ≡ 129) × (0 < a → 0 < t.space) × ((pages : List ℕ) × Told pages (records_of ms.now.records.now) p marks.now) }
    ensures { a ≡ page_at (objects_in h.now) t.space → result ≡ map_edit_at (head_in h.now).limit (objects_in h.now) (records_of ms.now.records.now) t.flags t.space zero memory t.length t.address }
{
    edits::decided(mapped_in(h, ms, p, marks, a, t, zero, memory))
}
