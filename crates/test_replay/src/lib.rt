// Replays a stored list of calls and edits on one table, a line each. The scripts in tests/ make the lists and work out the lines on their own.
#![tactic(auto)]

use program_lines::{STDIN_FILENO, record};

mod calls;
mod reading;
mod reasons;
mod replies;
mod stored;
mod sums;

// Replays the records of standard input.
pub fn run_input() {
    let mut input = io::large_buffer();
    let n = io::read_full(STDIN_FILENO, &mut input);
    run(&input[..n]);
}

// Answers each record up to the end, or up to one that is cut. The table of one record is the next one's.
pub fn run(s: &[u8]) {
    let mut t = edits::fresh(0).table;
    let mut left = s;
    while let Some((operation, body, rest)) = record(left) {
        t = calls::answer(t, operation, body);
        replies::ending(&t);
        left = rest;
    }
}
