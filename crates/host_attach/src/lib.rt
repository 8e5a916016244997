// What attach decides over a good table.
#![tactic(auto)]

ghost use Rattle.std.specs.Prelude.{List, ◌≡◌, ◌<◌};
ghost use Rattle.lists.specs.Search.{any};
ghost use Rattle.lists.specs.Checks.{first};
ghost use Rattle.rules_table.specs.Records.{object_at};
ghost use Rattle.rules_table.specs.Spaces.{alignment};
ghost use Rattle.rules_calls.specs.Attach.{misfits, attached_object, attach_edit};
ghost use Rattle.layout_mappings.specs.Words.{records_of};
ghost use Rattle.host_attach.specs.Attached.{attach_kinds, attach_fits};
ghost use Rattle.checks.specs.Refused.{refused};
ghost use Rattle.edits.specs.Settled.{decided};

use checks::{Errno, fail_if};
use index_search::Mappings;
use rules_calls::{Change, Edit};
use rules_table::{Attachment, Kind, Mapping, Object};

// Whether a mapping of space s does not fit the alignment a.
#[tactic(auto, unfolding(rules_calls::specs::Attach::misfits, rules_table::specs::Records::of_space))]
fn misfit(m: Mapping, s: u32, a: u64) -> bool
    ensures { result ≡ misfits s a m }
{
    m.space == s && !alignment::is_fit(a, m.address, m.length)
}

fn some_misfit(ws: &[[u64; 5]], s: u32, a: u64) -> bool
    ensures { result ≡ any (misfits s a) (records_of ws.now) }
{
    for i in 0..ws.len() {
        let m = layout_mappings::record(ws, i);
        if misfit(m, s, a) {
            return true;
        }
    }
    false
}

// o is the object to attach, h the object of the space's id.
#[tactic(auto, unfolding(lists::specs::Checks::first, crate::specs::Attached::attach_kinds))]
fn kind_checks(o: Object, h: Object) -> Result<(), Errno>
    ensures { refused result ≡ first (attach_kinds o h) 0 }
{
    fail_if(!table::is_device(o.kind), Errno::ENOENT)?;
    fail_if(!table::is_space(h.kind), Errno::ENOENT)?;
    fail_if(table::is_attached(o.kind), Errno::EBUSY)
}

// What stands in space s, of alignment a: its mappings and its allow list against the reserved ranges, its mappings against the alignment.
fn fit_checks(o: Object, h: Object, a: u64, ms: &Mappings, s: u32) -> Result<(), Errno>
    ensures { (os : List Object) → h ≡ object_at os s → a ≡ alignment os s → 0 < s → refused result ≡ first (attach_fits os (records_of ms.now.records.now) o s) 0 }
{
    let blocked = check_reserved::list_struck(&o.reserved.in_use(), ms, s)
        || table::lists_touch(o.reserved, h.allow);
    fail_if(blocked, Errno::EADDRINUSE)?;
    let page = alignment::smallest_page(o.bitmap);
    let higher = page.max(a);
    fail_if(some_misfit(ms.records, s, higher), Errno::EADDRINUSE)
}

#[tactic(auto, unfolding(rules_calls::specs::Attach::attached_object))]
fn attached_object(o: Object, s: u32) -> Object
    ensures { result ≡ attached_object o s }
{
    Object {
        kind: Kind::Device(Attachment::Attached(s)),
        ..o
    }
}

// The device attached, or why it is not.
fn attach(o: Object, h: Object, a: u64, ms: &Mappings, d: u32, s: u32) -> Result<Edit, Errno>
    ensures { (os : List Object) → o ≡ object_at os d → h ≡ object_at os s → a ≡ alignment os s → decided result ≡ attach_edit os (records_of ms.now.records.now) d s }
{
    kind_checks(o, h)?;
    fit_checks(o, h, a, ms, s)?;
    let change = Change::Put(edits::slot_of(d));
    Ok(edits::acceptance(0, change, attached_object(o, s)))
}

// o and h are the objects of ids d and s, a the alignment of s.
pub fn decide_attach(o: Object, h: Object, a: u64, ms: &Mappings, d: u32, s: u32) -> Edit
    ensures { (os : List Object) → o ≡ object_at os d → h ≡ object_at os s → a ≡ alignment os s → result ≡ attach_edit os (records_of ms.now.records.now) d s }
{
    edits::decided(attach(o, h, a, ms, d, s))
}
