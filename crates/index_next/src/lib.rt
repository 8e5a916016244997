// The next mapping of a space, by the index.
#![tactic(auto)]

ghost use Rattle.std.specs.Prelude.{◌≡◌, [], ◌-◌, ◌<◌, leb, length, get_or, take};
ghost use Rattle.ranges.specs.Ranges.{last_of};
ghost use Rattle.rules_calls.specs.Next.{ends_from, next_number};
ghost use Rattle.layout_mappings.specs.Words.{record_of, records_of};
ghost use Rattle.index_next.specs.NextPlace.{told};

use index_search::Mappings;

// Whether the length bytes from first on end at or after address a. No sum is made.
fn ends_at(first: u64, length: u64, a: u64) -> bool
    ensures { result ≡ leb a (last_of first length) }
{
    a <= first || a - first < length
}

// Whether the record in a slot is a mapping of space s that ends at or after address a.
#[tactic(auto, unfolding(rules_calls::specs::Next::ends_from, rules_table::specs::Records::of_space))]
fn ends_from(ws: &[[u64; 5]], i: usize, s: u32, a: u64) -> bool
    requires { i < length ws.now }
    ensures { result ≡ ends_from s a (record_of (get_or ws.now i [])) }
{
    layout_mappings::space_at(ws, i) == s
        && ends_at(layout_mappings::address_at(ws, i), ws[i][3], a)
}

// The number at place k of the index, if its record is a mapping of space s that ends at or after address a, else 0.
fn told_at(m: &Mappings, k: usize, s: u32, a: u64) -> u64
    requires { 0 < s }
    ensures { result ≡ told (take m.now.listed m.now.index.now) (records_of m.now.records.now) s a k }
{
    if k < m.listed && ends_from(m.records, index_search::slot_at(m.index, k), s, a) {
        return m.index[k];
    }
    0
}

// The number of the next mapping of space s from address a on: the last mapping that begins by a, if it ends at or after a, else the one behind it, if it is of the space.
pub fn next_number(m: &Mappings, s: u32, a: u64) -> u64
    requires { 0 < s }
    ensures { result ≡ next_number (records_of m.now.records.now) s a }
{
    let k = m.count_entered(true, s, a);
    let r = told_at(m, k.saturating_sub(1), s, a);
    if r != 0 {
        return r;
    }
    told_at(m, k, s, a)
}
