// A reason in five words (L1): its code, its errno, the object or the mapping record that it names, and start and length of its run.
#![tactic(auto)]

ghost use Rattle.std.specs.Prelude.{◌≡◌, eqb, length, get_or, None};
ghost use Rattle.rules_reasons.specs.Explain.{reason_code, run_words, reason_words};
ghost use Rattle.reason_words.specs.Words.{parts_of, Fits, Short};

use rules_reasons::Reason;
use runs::Run;

// What a reason tells: the object or the mapping record is 0 where it names none.
#[derive(Clone, Copy)]
pub struct Parts {
    pub code: u8,
    pub errno: u8,
    pub number: u32,
    pub run: Option<Run>,
}

fn parts_of(code: u8, errno: u8, number: u32, run: Option<Run>) -> Parts
    ensures { result ≡ record { code = code; errno = errno; number = number; run = run } }
{
    Parts {
        code,
        errno,
        number,
        run,
    }
}

// A reason that names nothing.
fn plain(code: u8, errno: u8) -> Parts
    ensures { result ≡ record { code = code; errno = errno; number = 0; run = None } }
{
    parts_of(code, errno, 0, None)
}

pub fn parts_in(r: Reason) -> Parts
    ensures { result ≡ parts_of r }
{
    match r {
        Reason::Accepted => plain(0, 0),
        Reason::NoSizeField => plain(1, 14),
        Reason::SizeTooSmall => plain(2, 22),
        Reason::SizePastBytes => plain(3, 14),
        Reason::TailNotZero => plain(4, 7),
        Reason::Flags => plain(5, 95),
        Reason::NoRight => plain(6, 22),
        Reason::WrongLength => plain(7, 22),
        Reason::MemoryPasses => plain(8, 75),
        Reason::SourcePasses => plain(9, 75),
        Reason::AddressPasses => plain(10, 75),
        Reason::NoSpace => plain(11, 2),
        Reason::NoSourceSpace => plain(12, 2),
        Reason::NoSource => plain(13, 2),
        Reason::NotWriteable => plain(14, 1),
        Reason::Misaligned => plain(15, 22),
        Reason::TouchesReserved(id) => parts_of(16, 22, id, None),
        Reason::TouchesMapping(k) => parts_of(17, 17, k, None),
        Reason::LengthMisaligned => plain(18, 22),
        Reason::NoPlace(run) => parts_of(19, 28, 0, run),
        Reason::NoRecord => plain(20, 12),
        Reason::OverLimit => plain(21, 12),
    }
}

// Whether nothing was in the way.
pub fn is_accepted(r: Reason) -> bool
    ensures { result ≡ eqb (reason_code r) 0 }
{
    matches!(r, Reason::Accepted)
}

// The start of a run, 0 where there is none.
fn run_start(q: Option<Run>) -> u64
    ensures { result ≡ get_or (run_words q) 0 0 }
{
    match q {
        None => 0,
        Some(run) => run.start,
    }
}

// Its length, 0 where there is none.
fn run_length(q: Option<Run>) -> u64
    requires { Fits q }
    ensures { result ≡ get_or (run_words q) 1 0 }
{
    match q {
        None => 0,
        Some(run) => run.more + 1,
    }
}

// Writes a reason in five words.
pub fn write(r: Reason, words: &mut [u64])
    requires { (length words.old ≡ 5) × Short r }
    ensures { words.new ≡ reason_words r }
{
    let p = parts_in(r);
    words[0] = u64::from(p.code);
    words[1] = u64::from(p.errno);
    words[2] = u64::from(p.number);
    words[3] = run_start(p.run);
    words[4] = run_length(p.run);
}
