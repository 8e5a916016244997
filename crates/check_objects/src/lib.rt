// Whether the objects of a head of 865 words are good: each by itself and by the one object that it names, read where they lie.
#![tactic(auto)]

ghost use Rattle.std.specs.Prelude.{◌≡◌, ◌≤◌, ◌<◌, false, MatchOption, replicate};
ghost use Rattle.lists.specs.Search.{any};
ghost use Rattle.rules_table.specs.Records.{attached_to};
ghost use Rattle.rules_table.specs.Words.{objects_in};
ghost use Rattle.layout_objects.specs.Slots.{object_in};
ghost use Rattle.table.specs.Checked.{object_ok, objects_ok};
ghost use Rattle.check_objects.specs.Pages.{slot_by, slot_of, ask_by, ask_of};
ghost use Rattle.check_objects.specs.Passed.{Turned, Next, Passed, free_after, free_to};

use layout_objects::{SLOTS, Slot};
use rules_table::{Attachment, Kind};

// Of good objects: the lowest free slot.
#[derive(Clone, Copy)]
pub struct Pass {
    pub free: Option<usize>,
}

// What the slot of a good object tells: whether it is free, and the page that it asks of a place of the pages.
#[derive(Clone, Copy)]
pub struct Turn {
    pub free: bool,
    pub slot: usize,
    pub page: u64,
}

// The slot that a device asks a page of: that of its space, and 0 where it has none of the 32.
fn slot_by(a: Attachment) -> usize
    ensures { (result ≡ slot_by a) × (result < 33) }
{
    match a {
        Attachment::Attached(h) if h <= 32 => h as usize,
        _ => 0,
    }
}

fn slot_of(id: usize, k: Kind) -> usize
    requires { id < 33 }
    ensures { (result ≡ slot_of id k) × (result < 33) }
{
    match k {
        Kind::Free => 0,
        Kind::Space => id,
        Kind::Device(a) => slot_by(a),
    }
}

// The page that a device asks of its slot, and 0 where it is loose.
fn ask_by(bitmap: u64, a: Attachment) -> u64
    ensures { result ≡ ask_by bitmap a }
{
    match a {
        Attachment::Loose => 0,
        Attachment::Attached(_) => alignment::smallest_page(bitmap),
    }
}

fn ask_of(bitmap: u64, k: Kind) -> u64
    ensures { result ≡ ask_of bitmap k }
{
    match k {
        Kind::Free => 0,
        Kind::Space => 1,
        Kind::Device(a) => ask_by(bitmap, a),
    }
}

// The lowest free slot so far, after slot i.
fn free_after(free: Option<usize>, i: usize, here: bool) -> Option<usize>
    ensures { result ≡ free_after free i here }
{
    free.or(here.then_some(i))
}

// An object that holds something, judged where it lies, with the object that it names. None where it is not good.
fn judge(o: &Slot) -> Option<Turn>
    ensures { MatchOption result (object_ok (objects_in o.now.head.now) (object_in o.now.head.now o.now.at) ≡ false) (Turned (objects_in o.now.head.now) o.now.at) }
{
    let kind = o.kind();
    if !object_rules::object_good(o, kind) {
        return None;
    }
    Some(Turn {
        free: table::is_free(kind),
        slot: slot_of(o.at + 1, kind),
        page: ask_of(object_rules::bitmap(o), kind),
    })
}

// The next slot from a place on whose words are not all zero. Where there is none: 32.
fn next_object(h: &[u64; 865], from: usize) -> usize
    requires { from ≤ 32 }
    ensures { Next (objects_in h.now) from result }
{
    for i in from..SLOTS {
        let slot = Slot { head: h, at: i };
        if !slot.is_released() {
            return i;
        }
    }
    SLOTS
}

// The lowest free slot so far, after released slots from i on before j.
#[tactic(auto, unfolding(crate::specs::Passed::free_to))]
fn free_to(free: Option<usize>, i: usize, j: usize) -> Option<usize>
    ensures { result ≡ free_to free i j }
{
    free_after(free, i, i < j)
}

// One pass over the object records: None where one is not good. A slot of zeros is good and free, and asks nothing: it is not decoded.
// Of good objects `pages` tells the alignment of each space by its id, 0 where the id is no space: each place keeps the highest page asked of it.
pub fn pass_over<'a>(h: &'a [u64; 865], pages: &'a mut [u64]) -> Option<Pass>
    requires { pages.old ≡ replicate 33 0 }
    ensures { MatchOption result (objects_ok (objects_in h.now) ≡ false) (λ p. Passed (objects_in h.now) p pages.new) }
{
    let mut i = next_object(h, 0);
    let mut free = free_to(None, 0, i);
    while i < SLOTS {
        let t = judge(&Slot { head: h, at: i })?;
        let page = pages[t.slot].max(t.page);
        pages[t.slot] = page;
        let here = free_after(free, i, t.free);
        let next = next_object(h, i + 1);
        free = free_to(here, i + 1, next);
        i = next;
    }
    Some(Pass { free })
}

// Whether a device is attached to space s.
pub fn is_held(h: &[u64; 865], s: u32) -> bool
    ensures { result ≡ any (λ o. attached_to s o.kind) (objects_in h.now) }
{
    for i in 0..SLOTS {
        let slot = Slot { head: h, at: i };
        if table::attached_to(slot.kind(), s) {
            return true;
        }
    }
    false
}
