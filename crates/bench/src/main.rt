// Runs a plan from standard input: a line for each of its commands, or `bad plan` alone.
#![tactic(auto)]

use program_lines::STDIN_FILENO;

// One byte more than a plan may have is read, so that a longer one is seen.
fn main() {
    let mut input = [0u8; 65537];
    let mut cmd = io::large_buffer();
    let mut area = io::large_buffer();
    let n = io::read_full(STDIN_FILENO, &mut input);
    plan_run::show(&input[..n], &mut cmd, &mut area);
}
