// What is not reserved in a space, as the fewest ascending ranges: what one list of ranges tells of an address, and how a range is written.
#![tactic(auto)]

ghost use Rattle.std.specs.Prelude.{◌≡◌, ◌*◌, ◌≤◌, length};
ghost use Rattle.ranges.specs.Ranges.{range, holds};
ghost use Rattle.rangelists.specs.Held.{ranges_of};
ghost use Rattle.freeranges.specs.Scan.{cover_of, end_for, run_end};
ghost use Rattle.freeranges.specs.Written.{put_range};

use rangelists::Ranges;
use ranges::{Range, U64MAX};

// Whether a range holds x.
#[tactic(auto, unfolding(ranges::specs::Ranges::holds))]
fn covers(q: Range, x: u64) -> bool
    ensures { result ≡ holds q x }
{
    q.start <= x && x <= q.last
}

// The last of the first range that holds x.
#[tactic(auto, using(crate::proofs::Scanning::cover_here, crate::proofs::Scanning::cover_on, crate::proofs::Scanning::cover_none))]
pub fn covering(l: &Ranges, x: u64) -> Option<u64>
    ensures { result ≡ cover_of (ranges_of l.now) x }
{
    for i in 0..l.len() {
        let q = l.at(i);
        if covers(q, x) {
            return Some(q.last);
        }
    }
    None
}

// Where a run of free addresses from x on ends because of one range: just below its start, where it starts above x.
#[tactic(auto, unfolding(crate::specs::Scan::end_for))]
fn end_before(q: Range, x: u64) -> u64
    ensures { result ≡ end_for x q }
{
    if q.start <= q.last && x < q.start {
        q.start - 1
    } else {
        U64MAX
    }
}

// The last address of the run of free ones that begins at x, where no range holds x.
#[tactic(auto, using(crate::proofs::Scanning::end_turn, crate::proofs::Scanning::end_none, crate::proofs::Scanning::end_most))]
pub fn run_end(l: &Ranges, x: u64) -> u64
    ensures { result ≡ run_end (ranges_of l.now) x }
{
    let mut lowest = U64MAX;
    for i in 0..l.len() {
        lowest = lowest.min(end_before(l.at(i), x));
    }
    lowest
}

// A range as 16 bytes at place k, where there is room for it.
#[tactic(auto, unfolding(crate::specs::Written::put_range, crate::specs::Written::put_at))]
pub fn put_range(area: &mut [u8], k: usize, room: usize, start: u64, last: u64)
    requires { 16 * room ≤ length area.old }
    ensures { area.new ≡ put_range k room (range start last) area.old }
{
    if k < room {
        wire::write64(area, 16 * k, start);
        wire::write64(area, 16 * k + 8, last);
    }
}
