// The bench runner: a plan's lines on standard output, or `bad plan` alone. The whole plan is run before anything is printed.
#![tactic(auto)]

ghost use Rattle.std.specs.Prelude.{◌≤◌, length};
ghost use Rattle.plan_run.specs.Shown.{Shows};

use plan_commands::Line;
use program_lines::{decimal, number, signed, text};

// What the lines are before a plan is run.
const EMPTY: Line = Line {
    request: 0,
    result: 0,
    charge: 0,
};

// Runs a plan: how many lines it has, their numbers, and demand 3 of it. None where it is bad. The buffers have room for any plan.
pub fn run(s: &[u8], cmd: &mut [u8], area: &mut [u8], lines: &mut [Line]) -> Option<usize>
    requires { (65536 ≤ length cmd.old) × (65536 ≤ length area.old) × (8192 ≤ length lines.old) }
    ensures { Shows s.now result lines.new }
{
    plan::run(s, cmd, area, lines)
}

// The command's number, the request, the result, the charge after it.
fn print_line(k: usize, line: &Line) {
    decimal(k as u64);
    number(u64::from(line.request));
    signed(line.result);
    number(line.charge);
    text(b"\n");
}

// The header, then a line for each command.
fn print_lines(lines: &[Line]) {
    text(b"step request result charge\n");
    for (k, line) in lines.iter().enumerate() {
        print_line(k, line);
    }
}

// Runs a plan and shows it.
pub fn show(s: &[u8], cmd: &mut [u8], area: &mut [u8])
    requires { (65536 ≤ length cmd.old) × (65536 ≤ length area.old) }
{
    let mut lines = [EMPTY; 8192];
    match run(s, cmd, area, &mut lines) {
        Some(count) => print_lines(&lines[..count]),
        None => text(b"bad plan\n"),
    }
}
