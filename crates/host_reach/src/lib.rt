// What reach and next find in a good table.
#![tactic(auto)]

ghost use Rattle.std.specs.Prelude.{true, List, ◌≡◌, ℕ, ◌+◌, ◌-◌, ◌≤◌, ◌<◌, Some};
ghost use Rattle.lists.specs.Each.{Each};
ghost use Rattle.lists.specs.Checks.{first};
ghost use Rattle.ranges.specs.Ranges.{U64MAX};
ghost use Rattle.rules_table.specs.Records.{object_at, is_space, is_attached, home_of};
ghost use Rattle.table.specs.Checked.{record_ok};
ghost use Rattle.rules_calls.specs.Reach.{may_do, reach_checks, reach_of};
ghost use Rattle.rules_calls.specs.Next.{next_edit};
ghost use Rattle.layout_mappings.specs.Words.{records_of};
ghost use Rattle.host_reach.specs.Held.{reach_in};
ghost use Rattle.checks.specs.Refused.{refused};
ghost use Rattle.edits.specs.Settled.{decided};

use checks::{Errno, fail_if};
use index_search::Mappings;
use rules_calls::Edit;
use rules_table::{Kind, Mapping, Object};

// Whether the mapping gives the right that is asked.
fn may_do(write: bool, m: Mapping) -> bool
    ensures { result ≡ may_do write m }
{
    if write {
        table::can_write(m)
    } else {
        table::can_read(m)
    }
}

// The memory behind address a of a mapping that holds it.
#[tactic(auto, unfolding(lists::specs::Checks::first))]
fn reach_in(m: Mapping, a: u64, write: bool) -> Result<Edit, Errno>
    requires { (m.address ≤ a) × (m.memory + (a - m.address) ≤ U64MAX) }
    ensures { decided result ≡ reach_in a write (Some m) }
{
    fail_if(!may_do(write, m), Errno::EPERM)?;
    Ok(edits::tell(m.memory + (a - m.address)))
}

#[tactic(auto, unfolding(lists::specs::Checks::first, rules_calls::specs::Reach::reach_checks))]
fn reach_checks(k: Kind, a: u64, n: u64) -> Result<(), Errno>
    ensures { refused result ≡ first (reach_checks k a n) 0 }
{
    fail_if(!table::is_device(k), Errno::ENOENT)?;
    fail_if(!table::is_attached(k), Errno::EINVAL)?;
    fail_if(n == 0, Errno::EINVAL)?;
    fail_if(ranges::passes_max(a, n), Errno::EOVERFLOW)
}

// What reach tells, or why it does not.
fn reach(o: Object, ms: &Mappings, a: u64, n: u64, write: bool) -> Result<Edit, Errno>
    requires { (is_attached o.kind ≡ true → 0 < home_of o.kind) × ((os : List Object) × Each (λ m. record_ok os m ≡ true) (records_of ms.now.records.now)) }
    ensures { (os : List Object) (d : ℕ) → o ≡ object_at os d → decided result ≡ reach_of os (records_of ms.now.records.now) d a n write }
{
    reach_checks(o.kind, a, n)?;
    let s = table::home_of(o.kind);
    let r = ranges::span_of(a, n);
    let Some(m) = ms.find_around(s, r) else {
        return Err(Errno::EFAULT);
    };
    reach_in(m, a, write)
}

// The records are those of a good table: so the address in memory is below 2^64.
pub fn reach_of(o: Object, ms: &Mappings, a: u64, n: u64, write: bool) -> Edit
    requires { (is_attached o.kind ≡ true → 0 < home_of o.kind) × ((os : List Object) × Each (λ m. record_ok os m ≡ true) (records_of ms.now.records.now)) }
    ensures { (os : List Object) (d : ℕ) → o ≡ object_at os d → result ≡ reach_of os (records_of ms.now.records.now) d a n write }
{
    edits::decided(reach(o, ms, a, n, write))
}

// o is the object of id s. The number of the mapping of space s with the lowest address of those that end at or after a.
pub fn next_of(o: Object, ms: &Mappings, s: u32, a: u64) -> Edit
    requires { is_space o.kind ≡ true → 0 < s }
    ensures { (os : List Object) → o ≡ object_at os s → result ≡ next_edit os (records_of ms.now.records.now) s a }
{
    let k = o.kind;
    if !table::is_space(k) {
        return edits::refusal(2);
    }
    edits::tell(index_next::next_number(ms, s, a))
}
