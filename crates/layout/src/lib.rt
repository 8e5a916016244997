// The head of a table as a kernel keeps it: the limit and the object records, as numbers only. Every field is a u32 or a u64, so that whatever C left there is read as it is;
// a kind that is none becomes a device attached to no space, which no good table has.
#![tactic(auto)]

ghost use Rattle.std.specs.Prelude.{◌≡◌};
ghost use Rattle.rules_table.specs.Layout.{kind_of, tag_of, decoded, encoded};
ghost use Rattle.rules_table.specs.Words.{low, high};

use rangelists::{Allowed, Reserved};
use rules_table::{Attachment, Kind, Object, RawObject};

// The two halves of a word.
pub fn low(w: u64) -> u32
    ensures { result ≡ low w }
{
    (w & 0xFFFF_FFFF) as u32
}

pub fn high(w: u64) -> u32
    ensures { result ≡ high w }
{
    (w >> 32) as u32
}

pub fn kind_of(kind: u32, home: u32) -> Kind
    ensures { result ≡ kind_of kind home }
{
    match kind {
        3 => Kind::Device(Attachment::Attached(home)),
        _ if home != 0 => Kind::Device(Attachment::Attached(0)),
        0 => Kind::Free,
        1 => Kind::Space,
        2 => Kind::Device(Attachment::Loose),
        _ => Kind::Device(Attachment::Attached(0)),
    }
}

fn tag_of(k: Kind) -> u32
    ensures { result ≡ tag_of k }
{
    match k {
        Kind::Free => 0,
        Kind::Space => 1,
        Kind::Device(Attachment::Loose) => 2,
        Kind::Device(Attachment::Attached(_)) => 3,
    }
}

// An object of any numbers, which need not lie in a head.
#[tactic(auto, unfolding(rules_table::specs::Layout::decoded))]
pub fn decode(r: RawObject) -> Object
    ensures { result ≡ decoded r }
{
    let RawObject {
        starts,
        lasts,
        froms,
        ends,
        ..
    } = r;
    Object {
        kind: kind_of(r.kind, r.home),
        bitmap: r.bitmap,
        reserved: Reserved {
            count: r.reserves,
            starts,
            lasts,
        },
        allow: Allowed {
            count: r.allows,
            starts: froms,
            lasts: ends,
        },
    }
}

pub fn encode(o: Object) -> RawObject
    ensures { result ≡ encoded o }
{
    let Reserved {
        count: reserves,
        starts,
        lasts,
    } = o.reserved;
    let Allowed {
        count: allows,
        starts: froms,
        lasts: ends,
    } = o.allow;
    RawObject {
        kind: tag_of(o.kind),
        home: table::home_of(o.kind),
        bitmap: o.bitmap,
        reserves,
        allows,
        starts,
        lasts,
        froms,
        ends,
    }
}
