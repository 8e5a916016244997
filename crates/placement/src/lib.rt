// Where an automatic mapping goes: the lowest candidate. The search stands at a place and jumps past every range that it touches there.
#![tactic(auto)]

ghost use Rattle.std.specs.Prelude.{◌≡◌, ◌-◌, ◌≤◌, length};
ghost use Rattle.rangelists.specs.Held.{ranges_of};
ghost use Rattle.placement.specs.Jumps.{past_of, jumps_to, Swept, room_at, lower_of};

use rangelists::Ranges;
use ranges::Range;

// What is looked for: so many bytes from a multiple of the alignment on, at low or above it.
#[derive(Clone, Copy)]
pub struct Want {
    pub alignment: u64,
    pub length: u64,
    pub low: u64,
}

// Where a search ended, and how often it jumped.
#[derive(Clone, Copy)]
pub struct Search {
    pub spot: Option<u64>,
    pub jumps: usize,
}

// The next place from x on at which q is not touched: x itself, or the lowest multiple past q.
#[tactic(auto, using(crate::specs::Sweeping::lowest_none), unfolding(crate::specs::Jumps::past_of))]
pub fn past(w: Want, x: u64, q: Range) -> Option<u64>
    ensures { result ≡ past_of w.alignment w.length x q }
{
    if !ranges::shares(ranges::span_of(x, w.length), q) {
        return Some(x);
    }
    alignment::lowest_multiple(w.alignment, q.last.checked_add(1)?)
}

// The jumps from x to the next place y.
#[tactic(auto, unfolding(crate::specs::Jumps::jumps_to))]
fn jumps_to(x: u64, y: u64) -> usize
    ensures { result ≡ jumps_to x y }
{
    usize::from(x != y)
}

// One pass over the ranges. After a jump it goes on with the next range: those before it are seen again by the next pass.
pub fn sweep(l: &Ranges, w: Want, from: u64) -> Search
    requires { length (ranges_of l.now) ≤ 256 }
    ensures { Swept w.alignment w.length (ranges_of l.now) from result.spot result.jumps }
{
    let mut x = from;
    let mut jumps: usize = 0;
    for i in 0..l.len() {
        let Some(y) = past(w, x, l.at(i)) else {
            return Search { spot: None, jumps };
        };
        jumps += jumps_to(x, y);
        x = y;
    }
    Search {
        spot: Some(x),
        jumps,
    }
}

// The bytes behind the first. A length of 0 counts as 1.
pub fn behind(length: u64) -> u64
    ensures { result ≡ length - 1 }
{
    length.saturating_sub(1)
}

// Whether the bytes from x on end by U64MAX and inside the window, told without their last address.
#[tactic(auto, unfolding(crate::specs::Jumps::room_at, ranges::specs::Ranges::passes, ranges::specs::Ranges::inside, ranges::specs::Ranges::span, ranges::specs::Ranges::last_of))]
pub fn has_room(length: u64, x: u64, window: Range) -> bool
    ensures { result ≡ room_at length x window }
{
    let more = behind(length);
    more <= window.last && x <= window.last - more && window.start <= x
}

// The lower of two places.
pub fn lower_spot(a: Option<u64>, b: Option<u64>) -> Option<u64>
    ensures { result ≡ lower_of a b }
{
    let (Some(x), Some(y)) = (a, b) else {
        return a.or(b);
    };
    Some(x.min(y))
}
