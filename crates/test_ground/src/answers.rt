// One line for each record, by its operation. A number of 32 bits stands in a word of 64.
use program_lines::{decimal, hex, number, signed, text, truth, word};
use rangelists::{Allowed, RangeList, Reserved};
use ranges::Range;

pub fn answer(operation: u32, body: &[u8]) {
    match operation {
        1 => share(body),
        2 => inside(body),
        3 => last(body),
        4 => pages(body),
        5 => fit(body),
        6 => multiple(body),
        7 => page(body),
        8 => reserved(body),
        9 => allowed(body),
        10 => open(body),
        11 => flags(body),
        12 => bytes(body),
        13 => id(body),
        _ => text(b"unknown operation"),
    }
    text(b"\n");
}

// The lowest 32 bits of a word; 0 where the body does not reach its end.
fn low(body: &[u8], k: usize) -> u32 {
    let [a, b, c, d, ..] = word(body, k).to_le_bytes();
    u32::from_le_bytes([a, b, c, d])
}

// So many words from place k on.
fn words<const N: usize>(body: &[u8], k: usize) -> [u64; N] {
    std::array::from_fn(|i| word(body, k.saturating_add(i)))
}

fn range_at(body: &[u8], k: usize) -> Range {
    let [start, last]: [u64; 2] = words(body, k);
    Range { start, last }
}

fn share(body: &[u8]) {
    text(b"share");
    truth(ranges::shares(range_at(body, 0), range_at(body, 2)));
}

fn inside(body: &[u8]) {
    text(b"inside");
    truth(ranges::is_inside(range_at(body, 0), range_at(body, 2)));
}

fn last(body: &[u8]) {
    let start = word(body, 0);
    let length = word(body, 1);
    let span = ranges::span_of(start, length);
    text(b"last");
    truth(ranges::passes_max(start, length));
    number(span.start);
    number(span.last);
}

fn pages(body: &[u8]) {
    text(b"pages");
    number(ranges::pages_touched(word(body, 0), word(body, 1)));
}

fn fit(body: &[u8]) {
    text(b"fit");
    truth(alignment::is_fit(word(body, 0), word(body, 1), word(body, 2)));
}

fn multiple(body: &[u8]) {
    text(b"multiple");
    found(alignment::lowest_multiple(word(body, 0), word(body, 1)));
}

// A number that may be missing.
fn found(x: Option<u64>) {
    match x {
        None => text(b" none"),
        Some(x) => number(x),
    }
}

fn page(body: &[u8]) {
    text(b"page");
    number(alignment::smallest_page(word(body, 0)));
}

// Behind a range, which is asked of it: a count, N starts and N lasts.
fn list<const N: usize>(body: &[u8]) -> RangeList<N> {
    RangeList {
        count: low(body, 2),
        starts: words(body, 3),
        lasts: words(body, N.saturating_add(3)),
    }
}

// The place of the first of its ranges that shares an address with the range asked.
fn touched<const N: usize>(l: &RangeList<N>, body: &[u8]) {
    found(l.first_touched(range_at(body, 0)).map(|i| i as u64));
}

fn reserved(body: &[u8]) {
    let l: Reserved = list(body);
    text(b"reserved");
    truth(l.is_valid());
    touched(&l, body);
}

fn allowed(body: &[u8]) {
    let l: Allowed = list(body);
    text(b"allowed");
    truth(l.is_valid());
    truth(l.has_overlap());
    touched(&l, body);
}

// A u32 request, then the command bytes as lent: the errno as a result.
fn open(body: &[u8]) {
    text(b"open");
    let Some((request, cmd)) = body.split_first_chunk() else {
        return;
    };
    let request = u32::from_le_bytes(*request);
    signed(opening::signed_result(opening::opening_errno(opening::open(request, cmd))));
}

fn flags(body: &[u8]) {
    let f = low(body, 0);
    text(b"flags");
    truth(opening::has_unknown(f));
    truth(opening::is_fixed(f));
    truth(opening::is_writeable(f));
    truth(opening::is_readable(f));
}

// A u64 and a u32 written at odd offsets of 16 bytes, the bytes, and both read back.
fn bytes(body: &[u8]) {
    let mut b = [0xAAu8; 16];
    wire::write64(&mut b, 1, word(body, 0));
    wire::write32(&mut b, 11, low(body, 1));
    text(b"bytes ");
    hex(&b);
    number(wire::read64(&b, 1));
    number(u64::from(wire::read32(&b, 11)));
}

// Bind's result for an id.
fn id(body: &[u8]) {
    let [n, ..] = word(body, 0).to_le_bytes();
    let id = opening::id_result(n);
    text(b"id ");
    if id < 0 {
        text(b"-");
    }
    decimal(u64::from(id.unsigned_abs()));
}
