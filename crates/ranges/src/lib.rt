// Intervals with an inclusive last address over u64, and the pages that a run of bytes touches.
// Every test is total: no sum that can wrap is computed, so a broken table needs no case of its own.
#![tactic(auto)]

ghost use Rattle.std.specs.Prelude.{◌≡◌, ◌≤◌, ◌^◌};
ghost use Rattle.ranges.specs.Ranges.{share, inside, passes, last_of, span};
ghost use Rattle.ranges.specs.Pages.{pages_touched};

pub const U64MAX: u64 = u64::MAX;

// From start to last, both included. A start above its last holds no address.
#[derive(Clone, Copy)]
pub struct Range {
    pub start: u64,
    pub last: u64,
}

// Every address.
pub const EVERYWHERE: Range = Range {
    start: 0,
    last: U64MAX,
};

// Whether two ranges share an address.
#[tactic(auto, unfolding(crate::specs::Ranges::share, crate::specs::Ranges::shared_start, crate::specs::Ranges::shared_last))]
pub fn shares(r: Range, q: Range) -> bool
    ensures { result ≡ share r q }
{
    r.start.max(q.start) <= r.last.min(q.last)
}

// Whether r lies wholly inside q.
#[tactic(auto, unfolding(crate::specs::Ranges::inside))]
pub fn is_inside(r: Range, q: Range) -> bool
    ensures { result ≡ inside r q }
{
    q.start <= r.start && r.last <= q.last
}

// Whether start + length - 1 passes U64MAX.
#[tactic(auto, unfolding(crate::specs::Ranges::passes))]
pub fn passes_max(start: u64, length: u64) -> bool
    ensures { result ≡ passes start length }
{
    length != 0 && U64MAX - start < length - 1
}

// start + length - 1, or U64MAX where that is passed. A length of 0 counts as 1: each rule refuses it first.
#[tactic(auto, unfolding(crate::specs::Ranges::last_of))]
pub fn last_of(start: u64, length: u64) -> u64
    ensures { result ≡ last_of start length }
{
    start.saturating_add(length.saturating_sub(1))
}

#[tactic(auto, unfolding(crate::specs::Ranges::span))]
pub fn span_of(start: u64, length: u64) -> Range
    ensures { result ≡ span start length }
{
    Range {
        start,
        last: last_of(start, length),
    }
}

// How many pages of 4,096 bytes hold one of the length bytes from memory on.
#[tactic(auto, unfolding(crate::specs::Pages::pages_touched))]
pub fn pages_touched(memory: u64, length: u64) -> u64
    ensures { (result ≡ pages_touched memory length) × (result ≤ 2 ^ 53) }
{
    if length == 0 {
        return 0;
    }
    let l = length - 1;
    l / 4096 + (memory % 4096 + l % 4096) / 4096 + 1
}
