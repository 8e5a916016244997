// An edit, written: the object record of the head that it names, in place, and what happens to the mapping records, handed back with the result.
#![tactic(auto)]

ghost use Rattle.std.specs.Prelude.{◌≡◌};
ghost use Rattle.rules_table.specs.Layout.{encoded};
ghost use Rattle.rules_table.specs.Words.{head_in};
ghost use Rattle.rules_calls.specs.Edits.{refuse};
ghost use Rattle.rules_lent.specs.Lent.{head_after};
ghost use Rattle.layout_objects.specs.Writing.{with_record};
ghost use Rattle.lent_edit.specs.Edits.{slot_of, object_of, records_for, nowhere, served_by};

use index_search::Slots;
use lent_records::Records;
use ranges::Range;
use rules_calls::{Change, Edit};
use rules_table::Object;

// A result, and what happens to the mapping records.
#[derive(Clone, Copy)]
pub struct Served {
    pub result: i32,
    pub records: Records,
}

// An errno, and no record changes.
pub fn refused(errno: u8) -> Served
    ensures { result ≡ served_by (refuse errno) nowhere }
{
    let keep = Records::Keep;
    Served {
        result: opening::signed_result(errno),
        records: keep,
    }
}

// ---- the head

// The slot of the object record that is written; 32 where none is.
fn slot_of(c: Change) -> usize
    ensures { result ≡ slot_of c }
{
    match c {
        Change::Nothing => 32,
        Change::Put(i) => i,
        Change::Drop(i) => i,
        Change::Map(_, _) => 32,
        Change::Clear(_, _) => 32,
    }
}

// A space that goes leaves a released record.
fn object_of(c: Change, o: Object) -> Object
    ensures { result ≡ object_of c o }
{
    let free = edits::free_object();
    match c {
        Change::Nothing => o,
        Change::Put(_) => o,
        Change::Drop(_) => free,
        Change::Map(_, _) => o,
        Change::Clear(_, _) => o,
    }
}

// ---- the mapping records

// The mappings of a space that goes.
fn dropped(i: usize, v: Slots) -> Records
    ensures { result ≡ records_for (Change.Drop i) v }
{
    if 32 <= i {
        return Records::Keep;
    }
    let all = ranges::EVERYWHERE;
    Records::Clear((i + 1) as u32, all, v.first, v.end)
}

// Those that go are released in these slots.
fn records_for(c: Change, v: Slots) -> Records
    ensures { result ≡ records_for c v }
{
    match c {
        Change::Nothing => Records::Keep,
        Change::Put(_) => Records::Keep,
        Change::Drop(i) => dropped(i, v),
        Change::Map(i, m) => Records::Put(i, m),
        Change::Clear(s, r) => Records::Clear(s, r, v.first, v.end),
    }
}

// An object record; none from slot 32 on.
fn put_object(h: &mut [u64; 865], i: usize, o: Object)
    ensures { head_in h.new ≡ with_record (head_in h.old) i (encoded o) }
{
    if i < 32 {
        layout_objects::put(h, i, o);
    }
}

// The head after an edit.
pub fn commit(h: &mut [u64; 865], e: Edit)
    ensures { head_in h.new ≡ head_after e (head_in h.old) }
{
    let c = e.change;
    let o = e.object;
    put_object(h, slot_of(c), object_of(c, o));
}

// What an edit answers; the records that go lie in these slots. Apart from commit, so that both are small enough to be compiled into their callers: by value an edit takes more stack.
pub fn answer(e: Edit, v: Slots) -> Served
    ensures { result ≡ served_by e v }
{
    let c = e.change;
    Served {
        result: opening::signed_result(e.errno),
        records: records_for(c, v),
    }
}
