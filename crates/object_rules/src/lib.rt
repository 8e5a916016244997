// One object by the rules of its kind, judged where it lies: of a head of 865 words only those are read that a rule asks for.
#![tactic(auto)]

ghost use Rattle.std.specs.Prelude.{◌≡◌};
ghost use Rattle.wire.specs.Fields.{zeros};
ghost use Rattle.rangelists.specs.Listed.{reserved, allowed};
ghost use Rattle.rules_table.specs.Fits.{device_fits, list_fits};
ghost use Rattle.rules_table.specs.Good.{lists_touch, reserved_rest, allow_rest, no_device, no_list};
ghost use Rattle.layout_objects.specs.Slots.{object_in};
ghost use Rattle.object_rules.specs.Judged.{home_fits, attach_fits, fits_by, place_by, named_place};

use layout_objects::Slot;
use rules_table::{Attachment, Kind};

// The bitmap of an object.
#[tactic(auto, using(layout_objects::proofs::Parts::bitmap_word))]
pub fn bitmap(o: &Slot) -> u64
    ensures { result ≡ (object_in o.now.head.now o.now.at).bitmap }
{
    o.word(1)
}

// How many ranges it says are reserved, and how many allowed.
#[tactic(auto, using(layout_objects::proofs::Parts::reserves_word))]
fn reserves(o: &Slot) -> u32
    ensures { result ≡ (object_in o.now.head.now o.now.at).reserved.count }
{
    layout::low(o.word(2))
}

#[tactic(auto, using(layout_objects::proofs::Parts::allows_word))]
fn allows(o: &Slot) -> u32
    ensures { result ≡ (object_in o.now.head.now o.now.at).allow.count }
{
    layout::high(o.word(2))
}

// Whether every word is zero. Their bits are joined, so that the loop has no branch.
#[tactic(auto, using(crate::proofs::Zeroing::bits_on, crate::proofs::Zeroing::bits_end))]
fn are_zero(words: &[u64]) -> bool
    ensures { result ≡ zeros words.now }
{
    let mut bits = 0;
    for w in words {
        bits |= *w;
    }
    bits == 0
}

// Whether the places of its reserved ranges that are not in use are zero.
#[tactic(auto, unfolding(rules_table::specs::Good::reserved_rest))]
fn reserved_rest(o: &Slot) -> bool
    ensures { result ≡ reserved_rest (object_in o.now.head.now o.now.at) }
{
    let n = rangelists::used(reserves(o), 4);
    are_zero(o.words(3 + n, 7)) && are_zero(o.words(7 + n, 11))
}

#[tactic(auto, unfolding(rules_table::specs::Good::allow_rest))]
fn allow_rest(o: &Slot) -> bool
    ensures { result ≡ allow_rest (object_in o.now.head.now o.now.at) }
{
    let n = rangelists::used(allows(o), 8);
    are_zero(o.words(11 + n, 19)) && are_zero(o.words(19 + n, 27))
}

// Whether what only a device has is zero: with no range in use every place is asked.
#[tactic(auto, unfolding(rules_table::specs::Good::no_device))]
fn no_device(o: &Slot) -> bool
    ensures { result ≡ no_device (object_in o.now.head.now o.now.at) }
{
    bitmap(o) == 0 && reserves(o) == 0 && are_zero(o.words(3, 11))
}

// Whether what only a space has is zero.
#[tactic(auto, unfolding(rules_table::specs::Good::no_list))]
fn no_list(o: &Slot) -> bool
    ensures { result ≡ no_list (object_in o.now.head.now o.now.at) }
{
    allows(o) == 0 && are_zero(o.words(11, 27))
}

// Whether bind takes the fields of a device.
#[tactic(auto, using(crate::proofs::Judging::fits_device))]
fn device_valid(o: &Slot) -> bool
    ensures { result ≡ device_fits (object_in o.now.head.now o.now.at) }
{
    let bitmap = bitmap(o);
    bitmap != 0
        && alignment::smallest_page(bitmap) <= 4096
        && reserves(o) <= 4
        && o.reserved_in_use().is_valid()
}

// Whether ALLOW_IOVAS takes the list of a space.
#[tactic(auto, using(crate::proofs::Judging::fits_list))]
fn list_valid(o: &Slot) -> bool
    ensures { result ≡ list_fits (object_in o.now.head.now o.now.at) }
{
    let list = o.allow_in_use();
    allows(o) <= 8 && list.is_valid() && !list.has_overlap()
}

// Whether some range that an object has reserved shares an address with some range of another's list.
fn lists_touch(o: &Slot, home: &Slot) -> bool
    ensures { result ≡ lists_touch (reserved (object_in o.now.head.now o.now.at).reserved) (allowed (object_in home.now.head.now home.now.at).allow) }
{
    table::ranges_touch(&o.reserved_in_use(), &home.allow_in_use())
}

// Whether a device may be attached to the object `home`.
#[tactic(auto, unfolding(crate::specs::Judged::home_fits))]
fn home_good(o: &Slot, home: &Slot) -> bool
    ensures { result ≡ home_fits (object_in home.now.head.now home.now.at) (object_in o.now.head.now o.now.at) }
{
    table::is_space(home.kind()) && !lists_touch(o, home)
}

// Whether it may be attached as it is: to nothing, or to one of the 32.
fn attach_good(o: &Slot, a: Attachment) -> bool
    ensures { result ≡ attach_fits (object_in o.now.head.now (place_by a)) (object_in o.now.head.now o.now.at) a }
{
    match a {
        Attachment::Loose => true,
        Attachment::Attached(s) => {
            1 <= s
                && s <= 32
                && home_good(
                    o,
                    &Slot {
                        head: o.head,
                        at: (s - 1) as usize,
                    },
                )
        }
    }
}

// A device, by its rules. Most devices keep the first two, and the last is asked of them alone.
fn device_good(o: &Slot, a: Attachment) -> bool
    ensures { result ≡ fits_by (object_in o.now.head.now (place_by a)) (object_in o.now.head.now o.now.at) (Kind.Device a) }
{
    device_valid(o) && attach_good(o, a) && reserved_rest(o) && no_list(o)
}

// An object by the rules of the kind k, with the object that this names.
pub fn object_good(o: &Slot, k: Kind) -> bool
    ensures { result ≡ fits_by (object_in o.now.head.now (named_place k)) (object_in o.now.head.now o.now.at) k }
{
    match k {
        Kind::Free => no_device(o) && no_list(o),
        Kind::Space => list_valid(o) && no_device(o) && allow_rest(o),
        Kind::Device(a) => device_good(o, a),
    }
}
