// The interface of the whole. Six operations on a table; nobody else writes it, and one call runs at a time. Each answers for any table, any bytes and any numbers, and ends.
// What each gives back is one equation with a definition of the rules; README.md names the theorems that say what the definitions mean.
#![tactic(auto)]

ghost use Rattle.std.specs.Prelude.{◌≡◌, ◌≤◌, length};
ghost use Rattle.rules_table.specs.Layout.{table_of};
ghost use Rattle.rules_table.specs.Words.{head_in, objects_in};
ghost use Rattle.rules_calls.specs.Requests.{request_of};
ghost use Rattle.rules_calls.specs.Objects.{destroy_edit};
ghost use Rattle.layout_mappings.specs.Words.{records_of};
ghost use Rattle.rules_table.specs.Good.{good};
ghost use Rattle.rules_calls.specs.Answers.{outcome, outcome_id, fresh_answer};
ghost use Rattle.rules_calls.specs.Gate.{table_with};
ghost use Rattle.rules_calls.specs.Orders.{bind_order, attach_order, detach_order, reach_order, reached_by, host_edit};
ghost use Rattle.rules_calls.specs.Call.{call_done};
ghost use Rattle.iommufd.specs.Deciding.{Left, Decided};

use check_table::GoodTable;
use rangelists::Reserved;
use rules_calls::{Answer, Command, Edit, Reached};
use rules_table::Table;

// An empty table with a charge limit in pages. Above 2^36 the result is -22, and every call on the table beside it answers -117.
pub fn fresh(limit: u64) -> Answer
    ensures { result ≡ fresh_answer limit }
{
    edits::fresh(limit)
}

// Whether a table is good: on any other every call answers -117.
pub fn is_good(t: Table) -> bool
    ensures { result ≡ good t }
{
    let os = t.objects;
    let h = layout_objects::head_of(t.limit, os);
    let ms = t.mappings;
    let ws = layout_mappings::words_of(ms);
    let mut ix: [u64; 128] = [0; 128];
    index_make::make(&ws, &mut ix);
    let mut pages: [u64; 33] = [0; 33];
    let mut marks: [u8; 129] = [0; 129];
    check_table::check(&h, &ws, &ix, &mut pages, &mut marks).is_some()
}

// ---- the commands

fn destroy(h: &[u64; 865], id: u32) -> Edit
    ensures { result ≡ destroy_edit (objects_in h.now) id }
{
    let o = layout_objects::object_of(h, id);
    let held = check_objects::is_held(h, id);
    cmd_space::decide_destroy(o, held, id)
}

// What a command that is open decides over a good table, by what the check has found of it. The reply is written.
fn decide_command(good: &GoodTable, c: Command, cmd: &mut [u8], area: &mut [u8]) -> Edit
    requires { (request_of c).size ≤ length cmd.old }
    ensures { Left c (table_with (head_in good.now.head.now).limit (objects_in good.now.head.now) (records_of good.now.records.now)) cmd.old area.old result cmd.new area.new }
{
    let ms = good.mappings();
    match c {
        Command::Destroy => destroy(good.head, wire::read32(cmd, 4)),
        Command::IoasAlloc => cmd_space_bytes::alloc(good.found.object, cmd),
        Command::AllowIovas => cmd_space_bytes::allow(good.head, cmd, area),
        Command::Copy => {
            let a = good.page_of(wire::read32(cmd, 8));
            let b = good.page_of(wire::read32(cmd, 12));
            cmd_map_bytes::copy(good.head, &ms, a, b, cmd)
        }
        Command::IovaRanges => {
            let a = good.page_of(wire::read32(cmd, 4));
            cmd_space_bytes::ranges(good.head, a, cmd, area)
        }
        Command::Map => {
            let page = good.page_of(wire::read32(cmd, 8));
            cmd_map_bytes::map(good.head, &ms, good.found.mappings, good.marks, page, cmd)
        }
        Command::Unmap => {
            let a = good.page_of(wire::read32(cmd, 4));
            cmd_map_bytes::unmap(a != 0, &ms, cmd)
        }
    }
}

// What a command decides: 117, then its opening, then its own checks. The reply is written into its bytes and the range area; table and index are not changed.
pub fn decide<'a>(
    h: &'a [u64; 865],
    ws: &'a [[u64; 5]],
    ix: &'a [u64],
    request: u32,
    cmd: &mut [u8],
    area: &mut [u8],
) -> Edit
    requires { length ws.now ≡ 128 }
    ensures { Decided record { table = table_of (head_in h.now) (records_of ws.now); index = ix.now } request cmd.old area.old result cmd.new area.new }
{
    let mut pages: [u64; 33] = [0; 33];
    let mut marks: [u8; 129] = [0; 129];
    let Some(found) = check_table::check(h, ws, ix, &mut pages, &mut marks) else {
        return edits::refusal(117);
    };
    let good = GoodTable {
        head: h,
        records: ws,
        index: ix,
        pages: &pages,
        marks: &marks,
        found,
    };
    match opening::open(request, cmd) {
        Err(why) => edits::refusal(opening::unopened_errno(why)),
        Ok(c) => decide_command(&good, c, cmd, area),
    }
}

// A driver's command: its request number, its bytes and the range area, which are changed in place. The result is 0 or the negative of an errno. A refusal changes
// neither table nor bytes, but for -90 of IOVA_RANGES.
pub fn call(t: Table, request: u32, cmd: &mut [u8], area: &mut [u8]) -> Answer
    ensures { (result ≡ (call_done t request cmd.old area.old).answer) × (cmd.new ≡ (call_done t request cmd.old area.old).bytes) × (area.new ≡ (call_done t request cmd.old area.old).area) }
{
    let h = layout_objects::head_of(t.limit, t.objects);
    let ws = layout_mappings::words_of(t.mappings);
    let mut ix: [u64; 128] = [0; 128];
    index_make::make(&ws, &mut ix);
    let e = decide(&h, &ws, &ix, request, cmd, area);
    edits::settled(t, e)
}

// ---- the host calls

// A new device, loose, with its page sizes and reserved ranges. The result is its id.
pub fn bind(t: Table, bitmap: u64, reserved: Reserved) -> Answer
    ensures { result ≡ outcome_id t (host_edit t (bind_order bitmap reserved)) }
{
    host_calls::bind(t, bitmap, reserved)
}

pub fn attach(t: Table, device: u32, space: u32) -> Answer
    ensures { result ≡ outcome t (host_edit t (attach_order device space)) }
{
    host_calls::attach(t, device, space)
}

pub fn detach(t: Table, device: u32) -> Answer
    ensures { result ≡ outcome t (host_edit t (detach_order device)) }
{
    host_calls::detach(t, device)
}

// The memory that a device gets to at an address, for reading or writing. The table is only read.
pub fn reach(t: Table, device: u32, address: u64, length: u64, write: bool) -> Reached
    ensures { result ≡ reached_by (host_edit t (reach_order device address length write)) }
{
    host_calls::reach(t, device, address, length, write)
}
