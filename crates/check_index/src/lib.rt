// The index of a table, checked in one pass over its numbers: each names a record in use, each mapping ends before the next of its space begins, and there are as many numbers
// as records in use. So each record in use is named once.
#![tactic(auto)]

ghost use Rattle.std.specs.Prelude.{◌≡◌, true, false, suc, ◌≤◌, ◌<◌, length, MatchOption};
ghost use Rattle.lists.specs.Search.{all};
ghost use Rattle.lists.specs.Sums.{count_of};
ghost use Rattle.rules_table.specs.Records.{used as in_use};
ghost use Rattle.rules_index.specs.Index.{lex, view, numbers_in};
ghost use Rattle.index.specs.Touched.{end_of};
ghost use Rattle.index.specs.Verdict.{ascending, index_ok};
ghost use Rattle.layout_mappings.specs.Words.{records_of};
ghost use Rattle.check_index.specs.Placed.{placed};
ghost use Rattle.check_index.specs.Listed.{zeros_from, Listed};

use rules_table::Mapping;

// Whether a mapping begins past an address of a space: in a higher one, or in that one behind the address.
#[tactic(auto, unfolding(rules_index::specs::Index::lex))]
fn is_past(space: u32, last: u64, m: Mapping) -> bool
    ensures { result ≡ lex space (suc last) m.space m.address }
{
    space < m.space || (space == m.space && last < m.address)
}

// The last address of a mapping that keeps its rules.
fn end_of(m: Mapping) -> u64
    requires { (placed m ≡ true) × (0 < m.space) }
    ensures { result ≡ end_of m }
{
    m.address + (m.length - 1)
}

// How many numbers stand before the first zero, None where one does not ascend. The first mapping comes past the end of space 0: no released record does.
fn pass_over<'a>(ws: &'a [[u64; 5]], ix: &'a [u64]) -> Option<usize>
    requires { (length ws.now ≡ 128) × (length ix.now ≡ 128) × (all placed (records_of ws.now) ≡ true) }
    ensures { let ascends = ascending (view (numbers_in ix.now) (records_of ws.now)) in MatchOption result (ascends ≡ false) (λ n. (ascends ≡ true) × (n ≡ length (numbers_in ix.now))) }
{
    let mut space: u32 = 0;
    let mut last = ranges::U64MAX;
    for k in 0..128 {
        let r = ix[k];
        if r == 0 {
            return Some(k);
        }
        if 128 < r {
            return None;
        }
        let m = layout_mappings::record(ws, (r - 1) as usize);
        if !is_past(space, last, m) {
            return None;
        }
        space = m.space;
        last = end_of(m);
    }
    Some(128)
}

// Whether the words from a place on are zero. All are read: a branch for each would cost more.
fn is_zero_from(ix: &[u64], from: usize) -> bool
    requires { (length ix.now ≡ 128) × (from ≤ 128) }
    ensures { result ≡ zeros_from from ix.now }
{
    let mut zero = true;
    for k in from..128 {
        zero &= ix[k] == 0;
    }
    zero
}

// How many numbers an index lists, beside records that keep their rules, of which `used` are in use. None where it is not that of the records.
pub fn listing_of<'a>(ws: &'a [[u64; 5]], ix: &'a [u64], used: usize) -> Option<usize>
    requires { (length ws.now ≡ 128) × (all placed (records_of ws.now) ≡ true) × (used ≡ count_of in_use (records_of ws.now)) }
    ensures { MatchOption result (index_ok ix.now (records_of ws.now) ≡ false) (Listed ix.now (records_of ws.now)) }
{
    if ix.len() != 128 {
        return None;
    }
    let listed = pass_over(ws, ix)?;
    if listed != used || !is_zero_from(ix, listed) {
        return None;
    }
    Some(listed)
}
