// Runs the plans of one standard input, each after the number of its bytes as a u32: `plan N`, then what the bench program shows. tests/benchplans.py makes the plans and the
// lines on its own.
#![tactic(auto)]

ghost use Rattle.std.specs.Prelude.{◌≤◌, length};

use program_lines::{STDIN_FILENO, counted, decimal, text};

fn main() {
    let mut input = [0u8; 262144];
    let mut cmd = io::large_buffer();
    let mut area = io::large_buffer();
    let n = io::read_full(STDIN_FILENO, &mut input);
    show_all(&input[..n], &mut cmd, &mut area);
}

// Each plan up to the end, or up to one that is cut.
fn show_all(mut s: &[u8], cmd: &mut [u8], area: &mut [u8])
    requires { (65536 ≤ length cmd.old) × (65536 ≤ length area.old) }
{
    let mut k = 0;
    while let Some((plan, rest)) = counted(s) {
        text(b"plan ");
        decimal(k);
        text(b"\n");
        plan_run::show(plan, cmd, area);
        s = rest;
        k += 1;
    }
}
