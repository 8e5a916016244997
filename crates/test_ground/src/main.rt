// Answers for a stored list of boundary inputs, a line each. tests/vectors.py makes the list and works out the lines on its own.
// The bodies of most records are u64 numbers.
#![tactic(auto)]

use program_lines::{STDIN_FILENO, record};

mod answers;

fn main() {
    let mut input = io::large_buffer();
    let n = io::read_full(STDIN_FILENO, &mut input);
    run(&input[..n]);
}

// Answers each record up to the end, or up to one that is cut.
fn run(mut s: &[u8]) {
    while let Some((operation, body, rest)) = record(s) {
        answers::answer(operation, body);
        s = rest;
    }
}
