// Short lists of ranges by value, each as an array of starts, an array of lasts and a count: a device's reserved ranges and an allow list.
// What is asked of a list is asked of two slices: a list in the words of a head is asked in place.
#![tactic(auto)]

ghost use Rattle.std.specs.Prelude.{◌≡◌, ◌+◌, ◌≤◌, ◌<◌, min, length, is_some, get_or};
ghost use Rattle.ranges.specs.Ranges.{range};
ghost use Rattle.rangelists.specs.Listed.{ranges_in, no_ranges, zero_range, touched_from, first_touched, valid, overlap};

use ranges::Range;

// A list of at most N ranges. Places from count on are not in use.
#[derive(Clone, Copy)]
pub struct RangeList<const N: usize> {
    pub count: u32,
    pub starts: [u64; N],
    pub lasts: [u64; N],
}

// The reserved ranges of a device.
pub type Reserved = RangeList<4>;

// An allow list, in the order given.
pub type Allowed = RangeList<8>;

// How many of `room` places a count names.
pub fn used(count: u32, room: usize) -> usize
    ensures { result ≡ min count room }
{
    room.min(count as usize)
}

// Ranges by the arrays of their starts and of their lasts, place by place.
#[derive(Clone, Copy)]
pub struct Ranges<'a> {
    pub starts: &'a [u64],
    pub lasts: &'a [u64],
    pub ghost even: { length starts.now ≡ length lasts.now },
}

impl Ranges<'_> {
    ghost use Rattle.rangelists.specs.Held.{ranges_of};

    #[tactic(auto, using(crate::proofs::Held::length_places))]
    pub fn len(&self) -> usize
        ensures { result ≡ length (ranges_of self.now) }
    {
        self.starts.len()
    }

    // The range at place i.
    #[tactic(auto, using(crate::proofs::Held::length_places, crate::proofs::Held::place_at))]
    pub fn at(&self, i: usize) -> Range
        requires { i < length (ranges_of self.now) }
        ensures { result ≡ get_or (ranges_of self.now) i zero_range }
    {
        Range {
            start: self.starts[i],
            last: self.lasts[i],
        }
    }

    // The first place, from `from` on, whose range shares an address with r.
    #[tactic(auto, using(crate::proofs::Listing::touched_here, crate::proofs::Listing::touched_on, crate::proofs::Listing::touched_none))]
    pub fn first_touched(&self, from: usize, r: Range) -> Option<usize>
        ensures { result ≡ touched_from r from (ranges_of self.now) }
    {
        for i in from..self.len() {
            if ranges::shares(r, self.at(i)) {
                return Some(i);
            }
        }
        None
    }

    // Whether each start is at most its last.
    pub fn is_valid(&self) -> bool
        ensures { result ≡ valid (ranges_of self.now) }
    {
        self.starts.iter().zip(self.lasts).all(|(s, l)| s <= l)
    }

    // Whether some two ranges share an address.
    #[tactic(auto, using(crate::proofs::Listing::overlap_here, crate::proofs::Listing::overlap_on, crate::proofs::Listing::overlap_none), unfolding(crate::specs::Listed::overlap))]
    pub fn has_overlap(&self) -> bool
        ensures { result ≡ overlap (ranges_of self.now) }
    {
        for i in 0..self.len() {
            if self.first_touched(i + 1, self.at(i)).is_some() {
                return true;
            }
        }
        false
    }
}

impl<const N: usize> RangeList<N> {
    ghost use Rattle.rangelists.specs.Held.{ranges_of};

    // No range, and every place zero.
    pub fn empty() -> Self
        ensures { result ≡ no_ranges N }
    {
        RangeList {
            count: 0,
            starts: [0; N],
            lasts: [0; N],
        }
    }

    // How many places are in use.
    pub fn used(&self) -> usize
        ensures { result ≡ min self.now.count N }
    {
        used(self.count, N)
    }

    // The ranges in use.
    #[tactic(auto, using(crate::proofs::Held::places_first, crate::proofs::Held::length_places), unfolding(crate::specs::Listed::ranges_in))]
    pub fn in_use(&self) -> Ranges<'_>
        ensures same { ranges_of result ≡ ranges_in self.now }
        ensures few { length (ranges_of result) ≤ N }
    {
        let n = self.used();
        Ranges {
            starts: &self.starts[..n],
            lasts: &self.lasts[..n],
        }
    }

    // The first range that shares an address with r.
    #[tactic(auto, unfolding(crate::specs::Listed::first_touched))]
    pub fn first_touched(&self, r: Range) -> Option<usize>
        ensures { result ≡ first_touched r (ranges_in self.now) }
    {
        self.in_use().first_touched(0, r)
    }

    // Whether each start is at most its last.
    pub fn is_valid(&self) -> bool
        ensures { result ≡ valid (ranges_in self.now) }
    {
        self.in_use().is_valid()
    }

    // Whether some two ranges share an address. A device's may.
    pub fn has_overlap(&self) -> bool
        ensures { result ≡ overlap (ranges_in self.now) }
    {
        self.in_use().has_overlap()
    }
}
