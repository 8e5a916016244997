// What the check of a table asks of its mappings and the devices' reserved ranges, read in place: no mapping shares an address with a reserved range
// of its space. One search of the index for each reserved range.
#![tactic(auto)]

ghost use Rattle.std.specs.Prelude.{◌≡◌};
ghost use Rattle.lists.specs.Search.{any, all};
ghost use Rattle.rangelists.specs.Held.{ranges_of};
ghost use Rattle.rules_table.specs.Spaces.{reserved_for, reserved_of};
ghost use Rattle.rules_table.specs.Good.{when_used, clear_of};
ghost use Rattle.rules_table.specs.Words.{objects_in};
ghost use Rattle.layout_objects.specs.Slots.{object_in};
ghost use Rattle.layout_mappings.specs.Words.{records_of};
ghost use Rattle.check_reserved.specs.Clear.{strikes, clear_by};

use index_search::Mappings;
use layout_objects::{SLOTS, Slot};
use rangelists::Ranges;
use ranges::Range;

// Whether some record in use is of space s and shares an address with r. No record in use is of space 0.
#[tactic(auto, using(crate::proofs::Clearing::struck_nowhere, crate::proofs::Clearing::struck_touched))]
fn some_struck(m: &Mappings, s: u32, r: Range) -> bool
    ensures { result ≡ any (strikes s r) (records_of m.now.records.now) }
{
    s != 0 && m.is_taken(s, r)
}

// Whether some record shares an address with some range of a list that is reserved in space s.
pub fn list_struck(l: &Ranges, m: &Mappings, s: u32) -> bool
    ensures { result ≡ any (λ r. any (strikes s r) (records_of m.now.records.now)) (ranges_of l.now) }
{
    for i in 0..l.len() {
        if some_struck(m, s, l.at(i)) {
            return true;
        }
    }
    false
}

// Whether no mapping shares an address with what an object reserves in the mapping's space.
fn slot_clear(o: &Slot, m: &Mappings) -> bool
    ensures { result ≡ clear_by (λ s. reserved_for s (object_in o.now.head.now o.now.at)) (records_of m.now.records.now) }
{
    let k = o.kind();
    if !table::is_attached(k) {
        return true;
    }
    !list_struck(&o.reserved_in_use(), m, table::home_of(k))
}

// Whether no mapping shares an address with a reserved range of its space.
pub fn is_clear(h: &[u64; 865], m: &Mappings) -> bool
    ensures { result ≡ all (λ m. when_used (clear_of (reserved_of (objects_in h.now) m.space)) m) (records_of m.now.records.now) }
{
    for i in 0..SLOTS {
        if !slot_clear(&Slot { head: h, at: i }, m) {
            return false;
        }
    }
    true
}
