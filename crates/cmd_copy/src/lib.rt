// What COPY decides over a good table: the numbers of the command, the source, then the place as in MAP, and no charge.
#![tactic(auto)]

ghost use Rattle.std.specs.Prelude.{true, List, ◌≡◌, ℕ, ◌<◌, Ok};
ghost use Rattle.lists.specs.Checks.{first};
ghost use Rattle.rules_table.specs.declared.Object.{Object};
ghost use Rattle.rules_table.specs.Records.{space_at};
ghost use Rattle.table.specs.Checked.{page_at};
ghost use Rattle.rules_table.specs.Words.{objects_in};
ghost use Rattle.layout_mappings.specs.Words.{records_of};
ghost use Rattle.rules_calls.specs.Copy.{source_mapping, source_checks, record_checks, copy_of};
ghost use Rattle.edits.specs.Numbers.{copy_number_checks_at, copy_edit_at};
ghost use Rattle.checks.specs.Refused.{refused};
ghost use Rattle.edits.specs.Settled.{decided};

use checks::{Errno, fail_if};
use index_search::Mappings;
use landing::Target;
use rules_calls::Edit;
use rules_table::Mapping;

// The numbers of the command, and the two spaces.
#[tactic(auto, unfolding(lists::specs::Checks::first, rules_calls::specs::Copy::copy_number_checks))]
fn check_numbers(target: bool, known: bool, t: Target, from: u64) -> Result<(), Errno>
    ensures { ((os : List Object) (source : ℕ) → target ≡ space_at os t.space → known ≡ space_at os source → refused result ≡ first (copy_number_checks_at os t.flags t.space source t.length t.address from) 0)
        × (refused result ≡ 0 → (target ≡ true) × (known ≡ true)) }
{
    fail_if(opening::has_unknown(t.flags), Errno::EOPNOTSUPP)?;
    fail_if(cmd_map::has_no_right(t.flags), Errno::EINVAL)?;
    fail_if(cmd_map::is_wrong_length(t.length), Errno::EINVAL)?;
    fail_if(ranges::passes_max(from, t.length), Errno::EOVERFLOW)?;
    fail_if(
        cmd_map::fixed_passes(t.flags, t.address, t.length),
        Errno::EOVERFLOW,
    )?;
    fail_if(!target, Errno::ENOENT)?;
    fail_if(!known, Errno::ENOENT)
}

// The source that was found. The right to write is the founder's, whatever the source itself may do.
#[tactic(auto, unfolding(lists::specs::Checks::first, rules_calls::specs::Copy::source_checks))]
fn source_in(flags: u32, o: Option<Mapping>) -> Result<Mapping, Errno>
    ensures { (refused result ≡ first (source_checks flags o) 0) × ((m : Mapping) → result ≡ Ok m → m ≡ source_mapping o) }
{
    let m = o.ok_or(Errno::ENOENT)?;
    fail_if(opening::is_writeable(flags) && m.founder != 1, Errno::EPERM)?;
    Ok(m)
}

// A free record.
#[tactic(auto, unfolding(rules_calls::specs::Copy::record_checks))]
fn check_record(free: Option<usize>) -> Result<(), Errno>
    ensures { refused result ≡ first (record_checks free) 0 }
{
    fail_if(free.is_none(), Errno::ENOMEM)
}

// The mapping that a COPY of m makes, at an address.
#[tactic(auto, unfolding(rules_calls::specs::Copy::copy_of))]
fn copied(m: Mapping, t: Target, address: u64) -> Mapping
    ensures { result ≡ copy_of m t.flags t.space t.length address }
{
    Mapping {
        space: t.space,
        rights: cmd_map::rights_of(t.flags),
        founder: m.founder,
        backing: m.backing,
        address,
        length: t.length,
        memory: m.memory,
    }
}

// The edit, or the first check that fires: the numbers of the command, the source, the place, the record.
fn copied_in(
    h: &[u64; 865],
    ms: &Mappings,
    a: u64,
    b: u64,
    t: Target,
    source: u32,
    from: u64,
) -> Result<Edit, Errno>
    requires { (0 < a → 0 < t.space) × (0 < b → 0 < source) }
    ensures { a ≡ page_at (objects_in h.now) t.space → b ≡ page_at (objects_in h.now) source → decided result ≡ copy_edit_at (objects_in h.now) (records_of ms.now.records.now) t.flags t.space source t.length t.address from }
{
    check_numbers(a != 0, b != 0, t, from)?;
    let found = ms.find_source(source, from, t.length);
    let m = source_in(t.flags, found)?;
    let address = cmd_map::place_in(h, ms, a, t)?;
    let free = scan::free_record(ms.records);
    check_record(free)?;
    Ok(cmd_map::put_new(free, copied(m, t, address)))
}

// What the check found: a and b, the alignments of the target's space and of the source's, 0 where there is no space.
pub fn decide_copy(
    h: &[u64; 865],
    ms: &Mappings,
    a: u64,
    b: u64,
    t: Target,
    source: u32,
    from: u64,
) -> Edit
    requires { (0 < a → 0 < t.space) × (0 < b → 0 < source) }
    ensures { a ≡ page_at (objects_in h.now) t.space → b ≡ page_at (objects_in h.now) source → result ≡ copy_edit_at (objects_in h.now) (records_of ms.now.records.now) t.flags t.space source t.length t.address from }
{
    edits::decided(copied_in(h, ms, a, b, t, source, from))
}
