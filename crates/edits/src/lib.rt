// The edit that a call decided, applied to a table by value. Beside it a new object in the lowest free record, and a fresh table.
#![tactic(auto)]

ghost use Rattle.std.specs.Prelude.{cond, map, List, ◌≡◌, ◌<◌, ◌-◌, length};
ghost use Rattle.rules_table.specs.Records.{free_object, new_space, zero_mapping, within, release};
ghost use Rattle.rules_calls.specs.Edits.{refuse, accept, tells, applied, added};
ghost use Rattle.rules_calls.specs.Answers.{outcome, outcome_id, fresh_answer};
ghost use Rattle.edits.specs.Settled.{decided};
ghost use Rattle.edits.specs.Parts.{put_object, drop_space, put_mapping, clear_inside};
ghost use Rattle.rules_table.specs.Charge.{free_record};

use checks::Errno;
use rangelists::RangeList;
use ranges::Range;
use rules_calls::{Answer, Change, Edit};
use rules_table::{Kind, Mapping, Object, Table};

// The highest limit that a table may have: 2^36 pages.
const HIGHEST_LIMIT: u64 = 0x10_0000_0000;

// A released object record.
pub fn free_object() -> Object
    ensures { result ≡ free_object }
{
    Object {
        kind: Kind::Free,
        bitmap: 0,
        reserved: RangeList::empty(),
        allow: RangeList::empty(),
    }
}

// A space with no allow list.
pub fn new_space() -> Object
    ensures { result ≡ new_space }
{
    Object {
        kind: Kind::Space,
        ..free_object()
    }
}

pub fn refusal(errno: u8) -> Edit
    ensures { result ≡ refuse errno }
{
    Edit {
        errno,
        value: 0,
        change: Change::Nothing,
        object: free_object(),
    }
}

// What was decided: the edit, or the refusal by its number.
pub fn decided(e: Result<Edit, Errno>) -> Edit
    ensures { result ≡ decided e }
{
    match e {
        Ok(edit) => edit,
        Err(errno) => refusal(errno.number()),
    }
}

pub fn acceptance(value: u64, change: Change, object: Object) -> Edit
    ensures { result ≡ accept value change object }
{
    Edit {
        errno: 0,
        value,
        change,
        object,
    }
}

// An answer that changes nothing.
pub fn tell(value: u64) -> Edit
    ensures { result ≡ tells value }
{
    acceptance(value, Change::Nothing, free_object())
}

pub fn put_object(t: Table, i: usize, object: Object) -> Table
    ensures { result ≡ put_object t i object }
{
    if 32 <= i {
        return t;
    }
    let mut next = t;
    next.objects[i] = object;
    next
}

// A record that goes becomes all zero, another stays.
fn released(gone: bool, m: Mapping) -> Mapping
    ensures { result ≡ cond gone zero_mapping m }
{
    if gone { table::zero_mapping() } else { m }
}

// The mapping records with those of a space inside a range released.
fn cleared(ms: [Mapping; 128], s: u32, r: Range) -> [Mapping; 128]
    ensures { result ≡ map (release (within s r)) ms }
{
    let mut next = ms;
    for k in 0..128 {
        let m = ms[k];
        next[k] = released(table::is_within(m, s, r), m);
    }
    next
}

pub fn put_mapping(t: Table, i: usize, m: Mapping) -> Table
    ensures { result ≡ put_mapping t i m }
{
    if 128 <= i {
        return t;
    }
    let mut next = t;
    next.mappings[i] = m;
    next
}

pub fn clear_inside(t: Table, s: u32, r: Range) -> Table
    ensures { result ≡ clear_inside t s r }
{
    let mut next = t;
    next.mappings = cleared(t.mappings, s, r);
    next
}

pub fn drop_space(t: Table, i: usize) -> Table
    ensures { result ≡ drop_space t i }
{
    if 32 <= i {
        return t;
    }
    let all = ranges::EVERYWHERE;
    let mut next = t;
    next.objects[i] = free_object();
    next.mappings = cleared(t.mappings, (i + 1) as u32, all);
    next
}

pub fn apply(t: Table, e: Edit) -> Table
    ensures { result ≡ applied t e }
{
    match e.change {
        Change::Nothing => t,
        Change::Put(i) => put_object(t, i, e.object),
        Change::Drop(i) => drop_space(t, i),
        Change::Map(i, m) => put_mapping(t, i, m),
        Change::Clear(s, r) => clear_inside(t, s, r),
    }
}

// The result of an edit, 0 or the negative errno, and the table after it.
pub fn settled(t: Table, e: Edit) -> Answer
    ensures { result ≡ outcome t e }
{
    Answer {
        result: opening::signed_result(e.errno),
        table: apply(t, e),
    }
}

// The same for a call whose success is an id: the id instead of 0.
pub fn settled_id(t: Table, e: Edit) -> Answer
    requires { e.value < 256 }
    ensures { result ≡ outcome_id t e }
{
    let result = if e.errno == 0 {
        opening::id_result(e.value as u8)
    } else {
        opening::signed_result(e.errno)
    };
    Answer {
        result,
        table: apply(t, e),
    }
}

// A table with every record released. A limit above 2^36 is 22, and the table with it is bad: no call takes it.
pub fn fresh(limit: u64) -> Answer
    ensures { result ≡ fresh_answer limit }
{
    let table = Table {
        limit,
        objects: [free_object(); 32],
        mappings: [table::zero_mapping(); 128],
    };
    let result = if limit <= HIGHEST_LIMIT { 0 } else { -22 };
    Answer { result, table }
}

// A new object in the lowest free record.
pub fn add_new(free: Option<usize>, object: Object) -> Edit
    ensures { (os : List Object) → length os ≡ 32 → free ≡ free_record os → result ≡ added (free_record os) object }
{
    let Some(i) = free else {
        return refusal(12);
    };
    if 32 <= i {
        return refusal(12);
    }
    acceptance((i + 1) as u64, Change::Put(i), object)
}

// The record of an id; 0 for an id that no record has.
pub fn slot_of(id: u32) -> usize
    ensures { result ≡ id - 1 }
{
    (id as usize).saturating_sub(1)
}
