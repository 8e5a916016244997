// What UNMAP decides over a good table. One search tells whether a mapping is cut, whether one goes, and the bytes: nothing is removed before.
#![tactic(auto)]

ghost use Rattle.std.specs.Prelude.{true, List, ◌≡◌, ℕ, ◌<◌};
ghost use Rattle.lists.specs.Each.{Each};
ghost use Rattle.lists.specs.Checks.{first};
ghost use Rattle.rules_table.specs.declared.Object.{Object};
ghost use Rattle.rules_table.specs.Records.{space_at};
ghost use Rattle.table.specs.Checked.{record_ok};
ghost use Rattle.layout_mappings.specs.Words.{records_of};
ghost use Rattle.rules_calls.specs.Unmap.{asks_all, range_asked, removal_by};
ghost use Rattle.edits.specs.Numbers.{unmap_number_checks_at, unmap_edit_at};
ghost use Rattle.checks.specs.Refused.{refused};
ghost use Rattle.edits.specs.Settled.{decided};

use checks::{Errno, fail_if};
use index_search::Mappings;
use ranges::Range;
use rules_calls::{Change, Edit};

#[tactic(auto, unfolding(rules_calls::specs::Unmap::asks_all))]
fn asks_all(a: u64, n: u64) -> bool
    ensures { result ≡ asks_all a n }
{
    a == 0 && n == ranges::U64MAX
}

// Every address in the remove-all form: the last one too.
#[tactic(auto, unfolding(rules_calls::specs::Unmap::range_asked))]
fn range_asked(a: u64, n: u64) -> Range
    ensures { result ≡ range_asked a n }
{
    if asks_all(a, n) {
        return ranges::EVERYWHERE;
    }
    ranges::span_of(a, n)
}

// The numbers of the command, and the space.
#[tactic(auto, unfolding(lists::specs::Checks::first, rules_calls::specs::Unmap::unmap_number_checks))]
fn check_numbers(known: bool, a: u64, n: u64) -> Result<(), Errno>
    ensures { (os : List Object) (s : ℕ) → known ≡ space_at os s → refused result ≡ first (unmap_number_checks_at os s a n) 0 }
{
    fail_if(n == 0, Errno::EINVAL)?;
    fail_if(ranges::passes_max(a, n), Errno::EOVERFLOW)?;
    fail_if(!known, Errno::ENOENT)
}

// Whether a mapping is cut, then whether some mapping goes.
#[tactic(auto, unfolding(lists::specs::Checks::first, rules_calls::specs::Unmap::removal_by))]
fn check_removal(all: bool, cut: bool, some: bool) -> Result<(), Errno>
    ensures { refused result ≡ first (removal_by all cut some) 0 }
{
    fail_if(cut, Errno::ENOENT)?;
    fail_if(!all && !some, Errno::ENOENT)
}

// The edit, or the first check that fires: the numbers of the command, then what a removal finds.
fn unmapped_in(known: bool, ms: &Mappings, s: u32, a: u64, n: u64) -> Result<Edit, Errno>
    requires { (known ≡ true → 0 < s) × ((os : List Object) × Each (λ m. record_ok os m ≡ true) (records_of ms.now.records.now)) }
    ensures { (os : List Object) → known ≡ space_at os s → decided result ≡ unmap_edit_at os (records_of ms.now.records.now) s a n }
{
    check_numbers(known, a, n)?;
    let r = range_asked(a, n);
    let v = ms.removal_of(s, r);
    check_removal(asks_all(a, n), v.cut, v.some)?;
    Ok(edits::acceptance(v.bytes, Change::Clear(s, r), edits::free_object()))
}

// known says whether the id is that of a space.
pub fn decide_unmap(known: bool, ms: &Mappings, s: u32, a: u64, n: u64) -> Edit
    requires { (known ≡ true → 0 < s) × ((os : List Object) × Each (λ m. record_ok os m ≡ true) (records_of ms.now.records.now)) }
    ensures { (os : List Object) → known ≡ space_at os s → result ≡ unmap_edit_at os (records_of ms.now.records.now) s a n }
{
    edits::decided(unmapped_in(known, ms, s, a, n))
}
