// What bind decides over a good table.
#![tactic(auto)]

ghost use Rattle.std.specs.Prelude.{List, ◌≡◌, ltb, length};
ghost use Rattle.lists.specs.Tests.{only_if};
ghost use Rattle.lists.specs.Checks.{first};
ghost use Rattle.rules_table.specs.Charge.{free_record};
ghost use Rattle.rules_table.specs.Fits.{bind_checks};
ghost use Rattle.rules_calls.specs.Bind.{only_first, trimmed, new_device, bind_edit};
ghost use Rattle.checks.specs.Refused.{refused};
ghost use Rattle.edits.specs.Settled.{decided};

use checks::{Errno, fail_if};
use rangelists::{RangeList, Reserved};
use rules_calls::Edit;
use rules_table::{Attachment, Kind, Object};

#[tactic(auto, unfolding(lists::specs::Checks::first, rules_table::specs::Fits::bind_checks))]
fn bind_checks(bitmap: u64, l: Reserved) -> Result<(), Errno>
    ensures { refused result ≡ first (bind_checks bitmap l) 0 }
{
    let page = alignment::smallest_page(bitmap);
    fail_if(bitmap == 0 || 4096 < page, Errno::EINVAL)?;
    fail_if(4 < l.count, Errno::EINVAL)?;
    fail_if(!l.is_valid(), Errno::EINVAL)
}

// The numbers of a list whose first n places are in use, with zero in the others.
fn only_first(xs: [u64; 4], n: u32) -> [u64; 4]
    ensures { result ≡ only_first n xs }
{
    std::array::from_fn(|i| if i < n as usize { xs[i] } else { 0 })
}

#[tactic(auto, unfolding(rules_calls::specs::Bind::trimmed))]
fn trim(l: Reserved) -> Reserved
    ensures { result ≡ trimmed l }
{
    Reserved {
        count: l.count,
        starts: only_first(l.starts, l.count),
        lasts: only_first(l.lasts, l.count),
    }
}

#[tactic(auto, unfolding(rules_calls::specs::Bind::new_device))]
fn new_device(bitmap: u64, l: Reserved) -> Object
    ensures { result ≡ new_device bitmap l }
{
    Object {
        kind: Kind::Device(Attachment::Loose),
        bitmap,
        reserved: trim(l),
        allow: RangeList::empty(),
    }
}

// The edit, or why there is none.
#[tactic(auto, using(crate::proofs::Binding::bind_record))]
fn bind(free: Option<usize>, bitmap: u64, l: Reserved) -> Result<Edit, Errno>
    ensures { (os : List Object) → length os ≡ 32 → free ≡ free_record os → decided result ≡ bind_edit os bitmap l }
{
    bind_checks(bitmap, l)?;
    Ok(edits::add_new(free, new_device(bitmap, l)))
}

// free is the lowest free record.
pub fn decide_bind(free: Option<usize>, bitmap: u64, l: Reserved) -> Edit
    ensures { (os : List Object) → length os ≡ 32 → free ≡ free_record os → result ≡ bind_edit os bitmap l }
{
    edits::decided(bind(free, bitmap, l))
}
