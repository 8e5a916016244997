// What the commands on spaces decide over a good table.
#![tactic(auto)]

ghost use Rattle.std.specs.Prelude.{List, ◌≡◌, ℕ, ◌+◌, ◌-◌, ◌*◌, ◌≤◌, ◌<◌, length};
ghost use Rattle.lists.specs.Checks.{first};
ghost use Rattle.lists.specs.Search.{any};
ghost use Rattle.rules_table.specs.Records.{attached_to, object_at, space_at};
ghost use Rattle.rules_table.specs.Charge.{free_record};
ghost use Rattle.rules_table.specs.Words.{objects_in};
ghost use Rattle.rules_calls.specs.Objects.{alloc_edit, removal, destroy_edit};
ghost use Rattle.rules_calls.specs.Allow.{number_at, column, area_list, with_allow, list_checks};
ghost use Rattle.edits.specs.Numbers.{allow_number_checks_at, allow_edit_at, ranges_checks_at};
ghost use Rattle.checks.specs.Refused.{refused};
ghost use Rattle.edits.specs.Settled.{decided};

use checks::{Errno, fail_if};
use rangelists::Allowed;
use rules_calls::{Change, Edit};
use rules_table::{Kind, Object};

// A new space, or why there is none.
#[tactic(auto, using(crate::proofs::Listing::alloc_record))]
fn alloc(free: Option<usize>, flags: u32) -> Result<Edit, Errno>
    ensures { (os : List Object) → length os ≡ 32 → free ≡ free_record os → decided result ≡ alloc_edit os flags }
{
    fail_if(flags != 0, Errno::EOPNOTSUPP)?;
    Ok(edits::add_new(free, edits::new_space()))
}

// free is the lowest free record.
pub fn decide_alloc(free: Option<usize>, flags: u32) -> Edit
    ensures { (os : List Object) → length os ≡ 32 → free ≡ free_record os → result ≡ alloc_edit os flags }
{
    edits::decided(alloc(free, flags))
}

fn removal_of(k: Kind, i: usize) -> Change
    ensures { result ≡ removal k i }
{
    match k {
        Kind::Space => Change::Drop(i),
        Kind::Free | Kind::Device(_) => Change::Put(i),
    }
}

// The release of an object, or why it stays.
#[tactic(auto, unfolding(lists::specs::Checks::first, rules_calls::specs::Objects::destroy_edit, rules_calls::specs::Objects::destroy_checks, rules_calls::specs::Objects::in_use))]
fn destroy(o: Object, held: bool, id: u32) -> Result<Edit, Errno>
    ensures { (os : List Object) → o ≡ object_at os id → held ≡ any (λ x. attached_to id x.kind) os → decided result ≡ destroy_edit os id }
{
    fail_if(table::is_free(o.kind), Errno::ENOENT)?;
    fail_if(table::is_attached(o.kind) || held, Errno::EBUSY)?;
    let change = removal_of(o.kind, edits::slot_of(id));
    Ok(edits::acceptance(0, change, edits::free_object()))
}

// o is the object of the id; held says whether a device is attached to it.
pub fn decide_destroy(o: Object, held: bool, id: u32) -> Edit
    ensures { (os : List Object) → o ≡ object_at os id → held ≡ any (λ x. attached_to id x.kind) os → result ≡ destroy_edit os id }
{
    edits::decided(destroy(o, held, id))
}

// A number of range k of the area, 0 from the count on.
fn area_number(area: &[u8], off: usize, count: u32, k: usize) -> u64
    requires { (off ≤ 8) × (16 * count ≤ length area.now) }
    ensures { result ≡ number_at off count k area.now }
{
    if count as usize <= k {
        return 0;
    }
    wire::read64(area, 16 * k + off)
}

// One number of each of N ranges.
pub fn column_of<const N: usize>(area: &[u8], off: usize, count: u32) -> [u64; N]
    requires { (off ≤ 8) × (16 * count ≤ length area.now) }
    ensures { result ≡ column off count 0 N area.now }
{
    std::array::from_fn(|k| area_number(area, off, count, k))
}

// The first count ranges of the area, in the order given.
#[tactic(auto, unfolding(rules_calls::specs::Allow::area_list))]
fn area_list(area: &[u8], count: u32) -> Allowed
    requires { 16 * count ≤ length area.now }
    ensures { result ≡ area_list count area.now }
{
    Allowed {
        count,
        starts: column_of(area, 0, count),
        lasts: column_of(area, 8, count),
    }
}

#[tactic(auto, unfolding(rules_calls::specs::Allow::with_allow))]
fn with_allow(o: Object, l: Allowed) -> Object
    ensures { result ≡ with_allow o l }
{
    Object { allow: l, ..o }
}

// known says whether the id is that of a space.
#[tactic(auto, unfolding(lists::specs::Checks::first, rules_calls::specs::Allow::allow_number_checks))]
fn number_checks(known: bool, count: u32, zero: u32, room: usize) -> Result<(), Errno>
    ensures { (os : List Object) (space : ℕ) → known ≡ space_at os space → refused result ≡ first (allow_number_checks_at os space count zero room) 0 }
{
    fail_if(zero != 0, Errno::EOPNOTSUPP)?;
    fail_if(!known, Errno::ENOENT)?;
    fail_if(8 < count, Errno::ENOMEM)?;
    fail_if(room < 16 * (count as usize), Errno::EFAULT)
}

#[tactic(auto, unfolding(lists::specs::Checks::first, rules_calls::specs::Allow::list_checks))]
fn list_checks(h: &[u64; 865], space: u32, l: Allowed) -> Result<(), Errno>
    ensures { refused result ≡ first (list_checks (objects_in h.now) space l) 0 }
{
    fail_if(!l.is_valid() || l.has_overlap(), Errno::EINVAL)?;
    let touches = reserved_ranges::list_touched(h, space, l);
    fail_if(touches, Errno::EADDRINUSE)
}

// The new allow list, or why it is not taken: the numbers of the command first, then the list in its area.
fn allow<'a>(
    h: &'a [u64; 865],
    space: u32,
    count: u32,
    zero: u32,
    area: &'a [u8],
) -> Result<Edit, Errno>
    ensures { decided result ≡ allow_edit_at (objects_in h.now) space count zero area.now }
{
    let o = layout_objects::object_of(h, space);
    number_checks(table::is_space(o.kind), count, zero, area.len())?;
    let l = area_list(area, count);
    list_checks(h, space, l)?;
    let change = Change::Put(edits::slot_of(space));
    Ok(edits::acceptance(0, change, with_allow(o, l)))
}

pub fn decide_allow<'a>(
    h: &'a [u64; 865],
    space: u32,
    count: u32,
    zero: u32,
    area: &'a [u8],
) -> Edit
    ensures { result ≡ allow_edit_at (objects_in h.now) space count zero area.now }
{
    edits::decided(allow(h, space, count, zero, area))
}

// The checks of IOVA_RANGES.
#[tactic(auto, unfolding(lists::specs::Checks::first, rules_calls::specs::Ranges::ranges_checks))]
pub fn ranges_checks(known: bool, count: u32, zero: u32, room: usize) -> Result<(), Errno>
    ensures { (os : List Object) (space : ℕ) → known ≡ space_at os space → refused result ≡ first (ranges_checks_at os space count zero room) 0 }
{
    fail_if(zero != 0, Errno::EOPNOTSUPP)?;
    fail_if(!known, Errno::ENOENT)?;
    fail_if(room < 16 * (count as usize), Errno::EFAULT)
}
