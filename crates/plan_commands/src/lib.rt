// One command of a plan: its bytes copied out, since a command changes them, then the door, then the charge.
#![tactic(auto)]

ghost use Rattle.std.specs.Prelude.{◌≡◌, ◌+◌, ◌≤◌, length};
ghost use Rattle.wire.specs.Fields.{field};
ghost use Rattle.rules_calls.specs.Call.{call_done};
ghost use Rattle.plan_commands.specs.Ran.{ran_at};

use rules_calls::Answer;
use rules_table::Table;

mod charging;

use charging::charge_of;

// The numbers of a command's line: the request, the result, the charge after it.
#[derive(Clone, Copy)]
pub struct Line {
    pub request: u32,
    pub result: i32,
    pub charge: u64,
}

// What a command leaves: its line, the place of the next command, the table.
#[derive(Clone, Copy)]
pub struct Ran {
    pub line: Line,
    pub next: usize,
    pub table: Table,
}

// The door with copies of the command bytes and of the range area.
fn call_on(
    t: Table,
    request: u32,
    bytes: &[u8],
    ranges: &[u8],
    cmd: &mut [u8],
    area: &mut [u8],
) -> Answer
    requires { (length cmd.old ≡ length bytes.now) × (length area.old ≡ length ranges.now) }
    ensures { result ≡ (call_done t request bytes.now ranges.now).answer }
{
    cmd.copy_from_slice(bytes);
    area.copy_from_slice(ranges);
    iommufd::call(t, request, cmd, area)
}

// The command at a place, run on a table. The two buffers have room for a whole plan.
pub fn run_at(t: Table, s: &[u8], at: usize, cmd: &mut [u8], area: &mut [u8]) -> Ran
    requires { (at + (12 + field 4 s.now (at + 4) + field 4 s.now (at + 8)) ≤ length s.now) × (length s.now ≤ length cmd.old) × (length s.now ≤ length area.old) }
    ensures { result ≡ ran_at t s.now at }
{
    let request = wire::read32(s, at);
    let n = wire::read32(s, at + 4) as usize;
    let m = wire::read32(s, at + 8) as usize;
    let middle = at + 12 + n;
    let next = middle + m;
    let Answer { result, table } = call_on(
        t,
        request,
        &s[at + 12..middle],
        &s[middle..next],
        &mut cmd[..n],
        &mut area[..m],
    );
    let line = Line {
        request,
        result,
        charge: charge_of(&table.mappings),
    };
    Ran { line, next, table }
}
