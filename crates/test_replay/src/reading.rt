// The ranges of a record's body.
use program_lines::word;
use rangelists::RangeList;

// So many ranges as the list has room for, of two words each, from word k on.
pub fn list<const N: usize>(body: &[u8], count: u32, k: usize) -> RangeList<N> {
    RangeList {
        count,
        starts: every_second(body, k),
        lasts: every_second(body, k.saturating_add(1)),
    }
}

// So many words from word k on, every second one.
fn every_second<const N: usize>(body: &[u8], k: usize) -> [u64; N] {
    std::array::from_fn(|i| word(body, k.saturating_add(i.saturating_mul(2))))
}
