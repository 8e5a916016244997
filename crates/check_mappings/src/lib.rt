// The mapping records of a table in place, checked in one pass over those in use.
#![tactic(auto)]

ghost use Rattle.std.specs.Prelude.{◌≡◌, ◌+◌, ◌-◌, ◌^◌, ◌<◌, ◌≤◌, true, false, MatchOption, length, replicate};
ghost use Rattle.ranges.specs.Ranges.{U64MAX};
ghost use Rattle.rules_table.specs.Charge.{mapping_pages};
ghost use Rattle.rules_table.specs.Good.{differ};
ghost use Rattle.records.specs.Alone.{sound};
ghost use Rattle.records.specs.Charging.{leader_place, mark_after, added_by};
ghost use Rattle.layout_mappings.specs.Words.{records_of, record_at};
ghost use Rattle.check_mappings.specs.Next.{Next};
ghost use Rattle.check_mappings.specs.Told.{page_of, agreed, Told};

use rules_table::Mapping;

// What one pass tells of records of which each keeps its own rules and those of each backing agree: how many are in use, and the pages of all backings.
#[derive(Clone, Copy)]
pub struct Pass {
    pub used: usize,
    pub charge: u64,
}

// A record that agrees with the first of its backing: the pages that it adds to the charge, and the mark of the backing after it.
#[derive(Clone, Copy)]
struct Standing {
    pages: u64,
    mark: u8,
}

// The next record from a place on that holds something. Where there is none: the number of records.
fn skip_blank(ws: &[[u64; 5]], from: usize) -> usize
    requires { (from ≤ 128) × (length ws.now ≡ 128) }
    ensures { Next (records_of ws.now) from result }
{
    for j in from..128 {
        if !layout_mappings::is_empty(ws, j) {
            return j;
        }
    }
    128
}

// The same. Most records that are asked for are in use, and of such a one a single word is read, not five.
fn next_used(ws: &[[u64; 5]], from: usize) -> usize
    requires { (from ≤ 128) × (length ws.now ≡ 128) }
    ensures { Next (records_of ws.now) from result }
{
    if from < 128 && layout_mappings::is_used(ws, from) {
        return from;
    }
    skip_blank(ws, from)
}

// The rules of a record in use, given the alignment of its space: the first that is broken ends it.
// A length of 0 wraps and is too long; bytes that begin above the top would pass U64MAX.
fn is_right(page: u64, m: Mapping) -> bool
    ensures { result ≡ sound page m }
{
    if page == 0 {
        return false;
    }
    if 1 < m.founder {
        return false;
    }
    if m.founder < m.rights % 2 {
        return false;
    }
    if m.rights == 0 {
        return false;
    }
    if 3 < m.rights {
        return false;
    }
    if m.backing == 0 {
        return false;
    }
    if 128 < m.backing {
        return false;
    }
    let n = m.length.wrapping_sub(1);
    if 0xFF_FFFF_FFFF < n {
        return false;
    }
    let top = u64::MAX - n;
    if top < m.address {
        return false;
    }
    if top < m.memory {
        return false;
    }
    alignment::is_fit(page, m.address, m.length)
}

// The alignment of the space that a record names, 0 where it names none. The remainder changes nothing and spares the machine a long mask.
pub fn page_of(pages: &[u64], space: u32) -> u64
    requires { length pages.now ≡ 33 }
    ensures { result ≡ page_of pages.now space }
{
    if space == 0 || 32 < space {
        return 0;
    }
    pages[(space % 64) as usize]
}

// The pages of a record whose memory ends by U64MAX.
fn pages_of(m: Mapping) -> u64
    requires { (0 < m.length) × (m.memory + (m.length - 1) ≤ U64MAX) }
    ensures { (result ≡ mapping_pages m) × (result ≤ 2 ^ 53) }
{
    let n = m.length - 1;
    (m.memory + n) / 4096 - m.memory / 4096 + 1
}

// How the record at i stands to the first of its backing, by the mark of the backing; None where they differ. The first itself has no mark yet, and its pages are added.
fn standing_of(ws: &[[u64; 5]], mark: u8, i: usize, m: Mapping) -> Option<Standing>
    requires { (leader_place mark i < length ws.now) × (i < 128) × (0 < m.space) × (0 < m.length) × (m.memory + (m.length - 1) ≤ U64MAX) }
    ensures { MatchOption result (m ≡ record_at ws.now i → differ (record_at ws.now (leader_place mark i)) m ≡ true)
        (λ s. (m ≡ record_at ws.now i → differ (record_at ws.now (leader_place mark i)) m ≡ false) × (s.pages ≡ added_by mark m) × (s.pages ≤ 2 ^ 53) × (s.mark ≡ mark_after mark i)) }
{
    if mark == 0 {
        return Some(Standing {
            pages: pages_of(m),
            mark: (i + 1) as u8,
        });
    }
    let leader = layout_mappings::record(ws, usize::from(mark - 1));
    if records::differs(leader, m) {
        return None;
    }
    Some(Standing { pages: 0, mark })
}

// One pass over the records in use, which counts them: each by itself and with the first of its backing. None where they are not good.
// Place s of `pages` has the alignment of space s, and 0 where s is no space. Place b of `marks` becomes one more than the place of the first record of backing b.
pub fn pass_over<'a>(ws: &'a [[u64; 5]], pages: &'a [u64], marks: &'a mut [u8]) -> Option<Pass>
    requires { (length ws.now ≡ 128) × (length pages.now ≡ 33) × (marks.old ≡ replicate 129 0) }
    ensures { MatchOption result (agreed pages.now (records_of ws.now) ≡ false) (λ p. Told pages.now (records_of ws.now) p marks.new) }
{
    let mut charge: u64 = 0;
    let mut used: usize = 0;
    let mut i = next_used(ws, 0);
    while i < 128 {
        let m = layout_mappings::record(ws, i);
        let page = page_of(pages, m.space);
        if !is_right(page, m) {
            return None;
        }
        let b = m.backing as usize;
        let mark = marks[b];
        let standing = standing_of(ws, mark, i, m)?;
        charge += standing.pages;
        marks[b] = standing.mark;
        used += 1;
        i = next_used(ws, i + 1);
    }
    Some(Pass { used, charge })
}
