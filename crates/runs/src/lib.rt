// Runs of free addresses, and the better of two.
#![tactic(auto)]

ghost use Rattle.std.specs.Prelude.{◌≡◌, ◌≤◌, length};
ghost use Rattle.rangelists.specs.Held.{ranges_of};
ghost use Rattle.runs.specs.Runs.{ahead, better, cut_at, free_to};

use rangelists::Ranges;
use ranges::Range;

// A run of addresses: its start, and one less than its length, so that all 2^64 addresses are a run too.
#[derive(Clone, Copy)]
pub struct Run {
    pub start: u64,
    pub more: u64,
}

// Whether the run of k + 1 addresses from x on is longer than that of l + 1 from y on, or as long and starts no higher.
#[tactic(auto, unfolding(crate::specs::Runs::ahead))]
fn is_ahead(x: u64, k: u64, y: u64, l: u64) -> bool
    ensures { result ≡ ahead x k y l }
{
    l < k || (l == k && x <= y)
}

// The longer of two, and of equals the lower.
pub fn better_of(a: Option<Run>, b: Option<Run>) -> Option<Run>
    ensures { result ≡ better a b }
{
    let (Some(x), Some(y)) = (a, b) else {
        return a.or(b);
    };
    if is_ahead(x.start, x.more, y.start, y.more) {
        a
    } else {
        b
    }
}

// What ends at e at the latest ends before q too, where q lies above x.
#[tactic(auto, unfolding(crate::specs::Runs::cut_at))]
pub fn cut_at(e: u64, x: u64, q: Range) -> u64
    ensures { result ≡ cut_at e x q }
{
    if x < q.start && q.start <= q.last {
        e.min(q.start - 1)
    } else {
        e
    }
}

// The last address up to `upto` such that all from x on are in none of the ranges; nowhere, where x is in one.
#[tactic(auto, using(crate::proofs::Freeing::free_in, crate::proofs::Freeing::free_on, crate::proofs::Freeing::free_none))]
pub fn free_to(l: &Ranges, upto: u64, x: u64) -> Option<u64>
    ensures { result ≡ free_to upto x (ranges_of l.now) }
{
    let here = Range { start: x, last: x };
    let mut e = upto;
    for i in 0..l.len() {
        let q = l.at(i);
        if ranges::shares(here, q) {
            return None;
        }
        e = cut_at(e, x, q);
    }
    Some(e)
}
