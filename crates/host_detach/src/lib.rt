// What detach decides over a good table.
#![tactic(auto)]

ghost use Rattle.std.specs.Prelude.{List, ◌≡◌};
ghost use Rattle.lists.specs.Checks.{first};
ghost use Rattle.rules_table.specs.Records.{object_at};
ghost use Rattle.rules_calls.specs.Attach.{loose_object, detach_checks, detach_edit};
ghost use Rattle.checks.specs.Refused.{refused};
ghost use Rattle.edits.specs.Settled.{decided};

use checks::{Errno, fail_if};
use rules_calls::{Change, Edit};
use rules_table::{Attachment, Kind, Object};

#[tactic(auto, unfolding(lists::specs::Checks::first, rules_calls::specs::Attach::detach_checks))]
fn detach_checks(o: Object) -> Result<(), Errno>
    ensures { refused result ≡ first (detach_checks o) 0 }
{
    fail_if(!table::is_device(o.kind), Errno::ENOENT)?;
    fail_if(!table::is_attached(o.kind), Errno::EINVAL)
}

#[tactic(auto, unfolding(rules_calls::specs::Attach::loose_object))]
fn loose_object(o: Object) -> Object
    ensures { result ≡ loose_object o }
{
    Object {
        kind: Kind::Device(Attachment::Loose),
        ..o
    }
}

// The edit, or why there is none.
#[tactic(auto, unfolding(rules_calls::specs::Attach::detach_edit))]
fn detach(o: Object, d: u32) -> Result<Edit, Errno>
    ensures { (os : List Object) → o ≡ object_at os d → decided result ≡ detach_edit os d }
{
    detach_checks(o)?;
    Ok(edits::acceptance(0, Change::Put(edits::slot_of(d)), loose_object(o)))
}

// o is the object of id d.
pub fn decide_detach(o: Object, d: u32) -> Edit
    ensures { (os : List Object) → o ≡ object_at os d → result ≡ detach_edit os d }
{
    edits::decided(detach(o, d))
}
