// A whole plan run: its lines go into a lent slice, so that nothing is printed before all of it was read.
ghost use Rattle.std.specs.Prelude.{map, ◌≡◌, ◌≤◌, length, take, is_some, unwrap_or};
ghost use Rattle.plan_shape.specs.Plan.{items_end, orders};
ghost use Rattle.plan.specs.Running.{kept_of, lines_from, is_ready, shown};

use crate::judge;
use plan_commands::{Line, run_at};
use plan_shape::Section;
use rules_table::Table;

// So many commands from a place on.
fn run_all(
    first: Table,
    s: &[u8],
    from: usize,
    n: u32,
    cmd: &mut [u8],
    area: &mut [u8],
    lines: &mut [Line],
)
    requires { (items_end Section.Commands n s.now from ≤ length s.now) × (length s.now ≤ length cmd.old) × (length s.now ≤ length area.old) × (n ≤ length lines.old) }
    ensures { take n lines.new ≡ map kept_of (lines_from 0 first (orders n s.now from)) }
{
    let mut t = first;
    let mut at = from;
    for k in 0..n as usize {
        let ran = run_at(t, s, at, cmd, area);
        lines[k] = ran.line;
        t = ran.table;
        at = ran.next;
    }
}

// Judges the plan, then runs all of its commands: how many lines it has, None where it is bad. The buffers have room for any plan.
pub fn run(s: &[u8], cmd: &mut [u8], area: &mut [u8], lines: &mut [Line]) -> Option<usize>
    requires { (65536 ≤ length cmd.old) × (65536 ≤ length area.old) × (8192 ≤ length lines.old) }
    ensures { (is_some result ≡ is_ready s.now) × (unwrap_or result 0 ≡ length (shown s.now)) × (take (unwrap_or result 0) lines.new ≡ map kept_of (shown s.now)) }
{
    let r = judge(s)?;
    run_all(r.table, s, r.at, r.count, cmd, area, lines);
    Some(r.count as usize)
}
