// The parts of a line that a program writes, and the records and numbers that it reads.
#![tactic(auto)]

ghost use Rattle.std.specs.Prelude.{◌<◌, length, MatchOption, ⊤};

// The numbers of standard input and of standard output.
pub const STDIN_FILENO: i32 = 0;

const STDOUT_FILENO: i32 = 1;

// ---- what is written

pub fn text(s: &[u8]) {
    io::write_all(STDOUT_FILENO, s);
}

// A number's decimal digits.
pub fn decimal(n: u64) {
    io::print_decimal(STDOUT_FILENO, n);
}

pub fn number(n: u64) {
    text(b" ");
    decimal(n);
}

pub fn signed(n: i32) {
    text(b" ");
    if n < 0 {
        text(b"-");
    }
    decimal(u64::from(n.unsigned_abs()));
}

pub fn truth(b: bool) {
    number(u64::from(b));
}

// A number's hexadecimal digits, at least so many.
pub fn hexadecimal(n: u64, width: usize) {
    io::print_hex(STDOUT_FILENO, n, width);
}

pub fn hex(s: &[u8]) {
    for x in s {
        hexadecimal(u64::from(*x), 2);
    }
}

// ---- what is read

// The bytes behind a u32 that counts them, and what follows. None where they are cut.
pub fn counted(s: &[u8]) -> Option<(&[u8], &[u8])>
    ensures { MatchOption result ⊤ (λ r. length r.1.now < length s.now) }
{
    let (count, rest) = s.split_first_chunk()?;
    rest.split_at_checked(u32::from_le_bytes(*count) as usize)
}

// A record is a u32 operation, then a body behind its count. The first one, and what follows it.
pub fn record(s: &[u8]) -> Option<(u32, &[u8], &[u8])>
    ensures { MatchOption result ⊤ (λ r. length r.2.now < length s.now) }
{
    let (operation, rest) = s.split_first_chunk()?;
    let (body, rest) = counted(rest)?;
    Some((u32::from_le_bytes(*operation), body, rest))
}

// The u64 at place k of the body, of 8 bytes each; 0 where the body does not reach it.
pub fn word(body: &[u8], k: usize) -> u64 {
    let (words, _) = body.as_chunks();
    words.get(k).map_or(0, |w| u64::from_le_bytes(*w))
}

// The u32 at place k, of 4 bytes each.
pub fn half(body: &[u8], k: usize) -> u32 {
    let (halves, _) = body.as_chunks();
    halves.get(k).map_or(0, |w| u32::from_le_bytes(*w))
}
