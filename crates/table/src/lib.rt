// Small tests of a kind, of a mapping and of lists of ranges. The records, and what a good table is, stand in rules_table; specs/ has its laws.
#![tactic(auto)]

ghost use Rattle.std.specs.Prelude.{◌≡◌};
ghost use Rattle.rangelists.specs.Listed.{reserved, allowed};
ghost use Rattle.rangelists.specs.Held.{ranges_of};
ghost use Rattle.rules_table.specs.Records.{is_free, is_space, is_device, is_attached, attached_to, home_of, zero_mapping, touches, within, can_write, can_read};
ghost use Rattle.rules_table.specs.Good.{lists_touch};

use rangelists::{Allowed, Ranges, Reserved};
use ranges::Range;
use rules_table::{Attachment, Kind, Mapping};

pub fn is_free(k: Kind) -> bool
    ensures { result ≡ is_free k }
{
    matches!(k, Kind::Free)
}

pub fn is_space(k: Kind) -> bool
    ensures { result ≡ is_space k }
{
    matches!(k, Kind::Space)
}

pub fn is_device(k: Kind) -> bool
    ensures { result ≡ is_device k }
{
    matches!(k, Kind::Device(_))
}

pub fn is_attached(k: Kind) -> bool
    ensures { result ≡ is_attached k }
{
    matches!(k, Kind::Device(Attachment::Attached(_)))
}

// Whether it is a device that is attached to space s.
pub fn attached_to(k: Kind, s: u32) -> bool
    ensures { result ≡ attached_to s k }
{
    matches!(k, Kind::Device(Attachment::Attached(h)) if h == s)
}

// The space that a device is attached to, 0 for any other object.
pub fn home_of(k: Kind) -> u32
    ensures { result ≡ home_of k }
{
    match k {
        Kind::Device(Attachment::Attached(h)) => h,
        _ => 0,
    }
}

// A released mapping record: it holds nothing.
pub fn zero_mapping() -> Mapping
    ensures { result ≡ zero_mapping }
{
    Mapping {
        space: 0,
        rights: 0,
        founder: 0,
        backing: 0,
        address: 0,
        length: 0,
        memory: 0,
    }
}

// Whether it is a mapping of space s and shares an address with r.
#[tactic(auto, unfolding(rules_table::specs::Records::touches, rules_table::specs::Records::of_space, rules_table::specs::Records::extent))]
pub fn is_touched(m: Mapping, s: u32, r: Range) -> bool
    ensures { result ≡ touches s r m }
{
    m.space == s && ranges::shares(r, ranges::span_of(m.address, m.length))
}

// Whether it is a mapping of space s and lies wholly inside r. Most are told by their space or their start, before the last address is reckoned.
#[tactic(auto, unfolding(rules_table::specs::Records::within, rules_table::specs::Records::of_space, rules_table::specs::Records::extent, ranges::specs::Ranges::span, ranges::specs::Ranges::inside))]
pub fn is_within(m: Mapping, s: u32, r: Range) -> bool
    ensures { result ≡ within s r m }
{
    if m.space != s || m.address < r.start {
        return false;
    }
    ranges::is_inside(ranges::span_of(m.address, m.length), r)
}

#[tactic(auto, using(crate::proofs::Leaves::write_bit))]
pub fn can_write(m: Mapping) -> bool
    ensures { result ≡ can_write m }
{
    m.rights & 1 == 1
}

#[tactic(auto, using(crate::proofs::Leaves::read_bit))]
pub fn can_read(m: Mapping) -> bool
    ensures { result ≡ can_read m }
{
    (m.rights >> 1) & 1 == 1
}

// Whether some range of one list shares an address with some range of another.
#[tactic(auto, using(crate::proofs::Touching::touch_here, crate::proofs::Touching::touch_on, crate::proofs::Touching::touch_none))]
pub fn ranges_touch(a: &Ranges, b: &Ranges) -> bool
    ensures { result ≡ lists_touch (ranges_of a.now) (ranges_of b.now) }
{
    for i in 0..a.len() {
        if b.first_touched(0, a.at(i)).is_some() {
            return true;
        }
    }
    false
}

// Whether some reserved range shares an address with some range of an allow list.
pub fn lists_touch(l: Reserved, allow: Allowed) -> bool
    ensures { result ≡ lists_touch (reserved l) (allowed allow) }
{
    ranges_touch(&l.in_use(), &allow.in_use())
}
