// The object records of a head of 865 words, in place: one is read where it is judged or used, and one is written.
#![tactic(auto)]

ghost use Rattle.std.specs.Prelude.{◌≡◌, true, ◌+◌, ◌-◌, ◌*◌, ◌≤◌, ◌<◌, length, get_or, take, drop};
ghost use Rattle.rangelists.specs.Listed.{reserved, allowed};
ghost use Rattle.rangelists.specs.Held.{ranges_of};
ghost use Rattle.rules_table.specs.Records.{object_at, free_object};
ghost use Rattle.rules_table.specs.Layout.{encoded, fresh_head};
ghost use Rattle.rules_table.specs.Words.{raw_at, head_in, objects_in};
ghost use Rattle.layout_objects.specs.Slots.{object_in};
ghost use Rattle.layout_objects.specs.Writing.{with_record, put_up_to};

use rangelists::{Allowed, Ranges, Reserved};
use rules_table::{Kind, Object, RawObject};

pub fn limit_of(h: &[u64; 865]) -> u64
    ensures { result ≡ (head_in h.now).limit }
{
    h[0]
}

// The slots of a head.
pub const SLOTS: usize = 32;

// One object of a head: its slot, one of 32.
#[derive(Clone, Copy)]
pub struct Slot<'a> {
    pub head: &'a [u64; 865],
    pub at: usize,
    pub ghost below: { at < 32 },
}

impl<'a> Slot<'a> {
    // Word k of its record.
    pub fn word(&self, k: usize) -> u64
        requires { k < 27 }
        ensures { result ≡ get_or self.now.head.now (27 * self.now.at + 1 + k) 0 }
    {
        self.head[27 * self.at + 1 + k]
    }

    // The words of its record from one place on, before another: a part of the head.
    pub fn words(&self, from: usize, to: usize) -> &'a [u64]
        requires { (from ≤ to) × (to ≤ 27) }
        ensures { (result.now ≡ take (to - from) (drop (27 * self.now.at + 1 + from) self.now.head.now)) × (length result.now ≡ to - from) }
    {
        let b = 27 * self.at + 1;
        let head = self.head;
        &head[b + from..b + to]
    }

    // N words from a place of its record on, by value.
    fn words_at<const N: usize>(&self, from: usize) -> [u64; N]
        requires { from + N ≤ 27 }
        ensures { result ≡ take N (drop (27 * self.now.at + 1 + from) self.now.head.now) }
    {
        let words = self.words(from, from + N);
        std::array::from_fn(|k| words[k])
    }

    // Its kind alone. Most records are free, and a word of 0 is not taken apart.
    pub fn kind(&self) -> Kind
        ensures { result ≡ (object_in self.now.head.now self.now.at).kind }
    {
        let w = self.word(0);
        if w == 0 {
            return Kind::Free;
        }
        layout::kind_of(layout::low(w), layout::high(w))
    }

    // Its reserved ranges alone.
    pub fn reserved(&self) -> Reserved
        ensures { result ≡ (object_in self.now.head.now self.now.at).reserved }
    {
        Reserved {
            count: layout::low(self.word(2)),
            starts: self.words_at(3),
            lasts: self.words_at(7),
        }
    }

    // Its reserved ranges that are in use, where they lie.
    pub fn reserved_in_use(&self) -> Ranges<'a>
        ensures { ranges_of result ≡ reserved (object_in self.now.head.now self.now.at).reserved }
    {
        let n = rangelists::used(layout::low(self.word(2)), 4);
        Ranges {
            starts: self.words(3, 3 + n),
            lasts: self.words(7, 7 + n),
        }
    }

    // Its allow list alone.
    fn allow(&self) -> Allowed
        ensures { result ≡ (object_in self.now.head.now self.now.at).allow }
    {
        Allowed {
            count: layout::high(self.word(2)),
            starts: self.words_at(11),
            lasts: self.words_at(19),
        }
    }

    // The ranges of its allow list that are in use, where they lie.
    pub fn allow_in_use(&self) -> Ranges<'a>
        ensures { ranges_of result ≡ allowed (object_in self.now.head.now self.now.at).allow }
    {
        let n = rangelists::used(layout::high(self.word(2)), 8);
        Ranges {
            starts: self.words(11, 11 + n),
            lasts: self.words(19, 19 + n),
        }
    }

    // The object by value.
    pub fn object(&self) -> Object
        ensures { result ≡ object_in self.now.head.now self.now.at }
    {
        Object {
            kind: self.kind(),
            bitmap: self.word(1),
            reserved: self.reserved(),
            allow: self.allow(),
        }
    }

    // Whether all its words are zero, so that its object is released. Their bits are joined: the loop has no branch.
    pub fn is_released(&self) -> bool
        ensures { result ≡ true → object_in self.now.head.now self.now.at ≡ free_object }
    {
        let mut bits = 0;
        for k in 0..27 {
            bits |= self.word(k);
        }
        bits == 0
    }
}

// The object with an id; a released one for an id that no record has.
pub fn object_of(h: &[u64; 865], id: u32) -> Object
    ensures { result ≡ object_at (objects_in h.now) id }
{
    match id {
        1..=32 => {
            let slot = Slot {
                head: h,
                at: (id - 1) as usize,
            };
            slot.object()
        }
        _ => edits::free_object(),
    }
}

// A word of two halves.
fn joined(low: u32, high: u32) -> u64
    ensures { result ≡ low + 4294967296 * high }
{
    u64::from(low) + (u64::from(high) << 32)
}

// The words of a record: read back they are the record.
fn words_of(r: RawObject) -> [u64; 27]
    ensures { raw_at result 0 ≡ r }
{
    let RawObject {
        kind,
        home,
        bitmap,
        reserves,
        allows,
        starts,
        lasts,
        froms,
        ends,
    } = r;
    [
        joined(kind, home),
        bitmap,
        joined(reserves, allows),
        starts[0],
        starts[1],
        starts[2],
        starts[3],
        lasts[0],
        lasts[1],
        lasts[2],
        lasts[3],
        froms[0],
        froms[1],
        froms[2],
        froms[3],
        froms[4],
        froms[5],
        froms[6],
        froms[7],
        ends[0],
        ends[1],
        ends[2],
        ends[3],
        ends[4],
        ends[5],
        ends[6],
        ends[7],
    ]
}

// The words from b on become w.
fn put_words(h: &mut [u64], b: usize, w: [u64; 27])
    requires { b + 27 ≤ length h.old }
    ensures { h.new ≡ put_up_to h.old b w 27 }
{
    h[b..b + 27].copy_from_slice(&w);
}

// The object in slot i becomes o.
pub fn put(h: &mut [u64; 865], i: usize, o: Object)
    requires { i < 32 }
    ensures { head_in h.new ≡ with_record (head_in h.old) i (encoded o) }
{
    put_words(h, 27 * i + 1, words_of(layout::encode(o)));
}

// Every object released, and a limit.
pub fn fresh(h: &mut [u64; 865], limit: u64)
    ensures { head_in h.new ≡ fresh_head limit }
{
    h.fill(0);
    h[0] = limit;
}

// The head of a table, for a caller that has the table by value.
pub fn head_of(limit: u64, os: [Object; 32]) -> [u64; 865]
    ensures { (objects_in result ≡ os) × ((head_in result).limit ≡ limit) }
{
    let mut h = [0; 865];
    h[0] = limit;
    for i in 0..SLOTS {
        put(&mut h, i, os[i]);
    }
    h
}
