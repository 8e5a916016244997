// A mapping record as five words, read and written in place.
#![tactic(auto)]

ghost use Rattle.std.specs.Prelude.{◌≡◌, ◌<◌, length, set};
ghost use Rattle.rules_table.specs.Records.{used};
ghost use Rattle.layout_mappings.specs.Words.{joined, record_of, words_of, records_of, record_at, is_empty};

use rules_table::Mapping;

// The mapping that the five words at i stand for, as an element of the list of mappings.
pub fn record(ws: &[[u64; 5]], i: usize) -> Mapping
    requires { i < length ws.now }
    ensures { result ≡ record_at ws.now i }
{
    let [a, b, address, length, memory] = ws[i];
    Mapping {
        space: (a & 0xFFFF_FFFF) as u32,
        rights: (a >> 32) as u32,
        founder: (b & 0xFFFF_FFFF) as u32,
        backing: (b >> 32) as u32,
        address,
        length,
        memory,
    }
}

// The space of the record at i, 0 where it is released: half a word is read, not five.
pub fn space_at(ws: &[[u64; 5]], i: usize) -> u32
    requires { i < length ws.now }
    ensures { result ≡ (record_at ws.now i).space }
{
    (ws[i][0] & 0xFFFF_FFFF) as u32
}

// The address of the record at i: one word is read.
pub fn address_at(ws: &[[u64; 5]], i: usize) -> u64
    requires { i < length ws.now }
    ensures { result ≡ (record_at ws.now i).address }
{
    ws[i][2]
}

// Whether a record is in use.
#[tactic(auto, unfolding(rules_table::specs::Records::used))]
pub fn is_used(ws: &[[u64; 5]], i: usize) -> bool
    requires { i < length ws.now }
    ensures { result ≡ used (record_at ws.now i) }
{
    space_at(ws, i) != 0
}

// A word of two halves.
fn joined(low: u32, high: u32) -> u64
    ensures { result ≡ joined low high }
{
    u64::from(low) + (u64::from(high) << 32)
}

// The words of a mapping: read back they are the mapping.
pub fn words(m: Mapping) -> [u64; 5]
    ensures { (result ≡ words_of m) × (record_of result ≡ m) }
{
    [
        joined(m.space, m.rights),
        joined(m.founder, m.backing),
        m.address,
        m.length,
        m.memory,
    ]
}

pub fn put(ws: &mut [[u64; 5]], i: usize, m: Mapping)
    requires { i < length ws.old }
    ensures { records_of ws.new ≡ set (records_of ws.old) i m }
{
    ws[i] = words(m);
}

// Whether a record is released and holds nothing: its five words are zero. They are asked without a branch.
pub fn is_empty(ws: &[[u64; 5]], i: usize) -> bool
    requires { i < length ws.now }
    ensures { result ≡ is_empty (record_at ws.now i) }
{
    let [a, b, c, d, e] = ws[i];
    (a == 0) & (b == 0) & (c == 0) & (d == 0) & (e == 0)
}

// The records of a table, for a caller that has them by value.
pub fn words_of(ms: [Mapping; 128]) -> [[u64; 5]; 128]
    ensures { records_of result ≡ ms }
{
    let mut ws = [[0; 5]; 128];
    for i in 0..128 {
        ws[i] = words(ms[i]);
    }
    ws
}
