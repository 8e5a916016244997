// The mapping records in the caller's memory, behind two thin functions: their words are read whole, and only the records that a call changes are written, in place. Both take
// a slice of any length.
#![tactic(auto)]

ghost use Rattle.std.specs.Prelude.{◌≡◌, length};
ghost use Rattle.lent_records.specs.Loading.{bound_of, Loaded};
ghost use Rattle.lent_records.specs.Records.{changes, becomes, stored, turns_of, first_of};

use ranges::Range;
use rules_table::Mapping;

// What happens to the mapping records.
#[derive(Clone, Copy)]
pub enum Records {
    Keep,
    // The record at a place becomes this mapping.
    Put(usize, Mapping),
    // The mappings of a space that lie wholly inside a range are released, of those from one place on and before another.
    Clear(u32, Range, usize, usize),
    // Every record is released.
    Wipe,
}

// Whether the record m at place k is written.
pub fn is_changed(c: Records, k: usize, m: Mapping) -> bool
    ensures { result ≡ changes c k m }
{
    match c {
        Records::Keep => false,
        Records::Put(i, _) => k == i,
        Records::Clear(s, r, first, end) => { first <= k && k < end && table::is_within(m, s, r) }
        Records::Wipe => true,
    }
}

// What is written there.
pub fn new_record(c: Records) -> Mapping
    ensures { result ≡ becomes c }
{
    match c {
        Records::Put(_, m) => m,
        Records::Keep | Records::Clear(..) | Records::Wipe => table::zero_mapping(),
    }
}

// How many records are read: all of 128, and none of another number.
#[tactic(auto, unfolding(crate::specs::Loading::bound_of))]
fn bound(n: usize) -> usize
    ensures { result ≡ bound_of n }
{
    if n == 128 { 128 } else { 0 }
}

// Of n records those before this place are looked at: none where none changes; where one is put, none after it; where some are released, none after the last of them.
fn turns(c: Records, n: usize) -> usize
    ensures { result ≡ turns_of c n }
{
    match c {
        Records::Keep => 0,
        Records::Put(i, _) => if i < n { i + 1 } else { 0 },
        Records::Clear(_, _, _, end) => end.min(n),
        Records::Wipe => n,
    }
}

// And those from this place on: where one is put or some are released, none before the first of them.
fn first_turn(c: Records, n: usize) -> usize
    ensures { result ≡ first_of c n }
{
    match c {
        Records::Keep => 0,
        Records::Put(i, _) => if i < n { i } else { 0 },
        Records::Clear(_, _, first, _) => first.min(n),
        Records::Wipe => 0,
    }
}

// The words of the records, where there are 128 of them; else nothing is written.
pub fn load(ms: &[Mapping], ws: &mut [[u64; 5]; 128])
    ensures { Loaded ms.now ws.new }
{
    let n = bound(ms.len());
    for i in 0..n {
        ws[i] = layout_mappings::words(ms[i]);
    }
}

// Only the records that change are written; the one that is put is looked at alone, and of those that are released the places between which they lie.
pub fn store(ms: &mut [Mapping], c: Records)
    ensures { ms.new ≡ stored c ms.old }
{
    let r = new_record(c);
    let n = turns(c, ms.len());
    for i in first_turn(c, n)..n {
        if is_changed(c, i, ms[i]) {
            ms[i] = r;
        }
    }
}
