// The host calls, and the charge. What a call asks is an order; deciding answers a small edit, and by value the edit is applied to the table. Each takes any table: a bad one is
// 117, and a refusal gives the table back as it was.
#![tactic(auto)]

ghost use Rattle.std.specs.Prelude.{◌≡◌, length};
ghost use Rattle.rules_table.specs.Layout.{table_of};
ghost use Rattle.rules_table.specs.Words.{head_in, objects_in};
ghost use Rattle.layout_mappings.specs.Words.{records_of};
ghost use Rattle.rules_calls.specs.Gate.{table_with};
ghost use Rattle.rules_index.specs.Board.{board_host};
ghost use Rattle.rules_calls.specs.Answers.{outcome, outcome_id};
ghost use Rattle.rules_calls.specs.Orders.{bind_order, attach_order, detach_order, reach_order, reached_by, act_edit, host_edit};

use check_table::GoodTable;
use rangelists::Reserved;
use rules_calls::{Act, Answer, Edit, Order, Reached};
use rules_table::Table;

// ---- deciding

// What an order decides over a good table, by what the check has found of it.
fn decide_act(good: &GoodTable, o: Order) -> Edit
    ensures { result ≡ act_edit (table_with (head_in good.now.head.now).limit (objects_in good.now.head.now) (records_of good.now.records.now)) o o.act }
{
    let ms = good.mappings();
    let first = layout_objects::object_of(good.head, o.first);
    match o.act {
        Act::Bind => host_bind::decide_bind(good.found.object, o.bitmap, o.reserved),
        Act::Attach => {
            let device = layout_objects::object_of(good.head, o.second);
            let a = good.page_of(o.first).max(1);
            host_attach::decide_attach(device, first, a, &ms, o.second, o.first)
        }
        Act::Detach => host_detach::decide_detach(first, o.first),
        Act::Reach(write) => host_reach::reach_of(first, &ms, o.address, o.length, write),
        Act::Charge => edits::tell(good.found.mappings.charge),
        Act::Next => host_reach::next_of(first, &ms, o.first, o.address),
    }
}

// 117 for a bad table and for an index that is not its own, else what the order decides. Nothing is changed.
pub fn decide_host<'a>(h: &'a [u64; 865], ws: &'a [[u64; 5]], ix: &'a [u64], o: Order) -> Edit
    requires { length ws.now ≡ 128 }
    ensures { result ≡ board_host record { table = table_of (head_in h.now) (records_of ws.now); index = ix.now } o }
{
    let mut pages: [u64; 33] = [0; 33];
    let mut marks: [u8; 129] = [0; 129];
    let Some(found) = check_table::check(h, ws, ix, &mut pages, &mut marks) else {
        return edits::refusal(117);
    };
    let good = GoodTable {
        head: h,
        records: ws,
        index: ix,
        pages: &pages,
        marks: &marks,
        found,
    };
    decide_act(&good, o)
}

// ---- by value: the index is worked out from the records

fn decided(t: Table, o: Order) -> Edit
    ensures { result ≡ host_edit t o }
{
    let os = t.objects;
    let h = layout_objects::head_of(t.limit, os);
    let ms = t.mappings;
    let ws = layout_mappings::words_of(ms);
    let mut ix: [u64; 128] = [0; 128];
    index_make::make(&ws, &mut ix);
    decide_host(&h, &ws, &ix, o)
}

// A new device, loose, with its page sizes and reserved ranges. The result is its id.
pub fn bind(t: Table, bitmap: u64, reserved: Reserved) -> Answer
    ensures { result ≡ outcome_id t (host_edit t (bind_order bitmap reserved)) }
{
    let e = decided(t, host_orders::bind_order(bitmap, reserved));
    edits::settled_id(t, e)
}

pub fn attach(t: Table, device: u32, space: u32) -> Answer
    ensures { result ≡ outcome t (host_edit t (attach_order device space)) }
{
    let e = decided(t, host_orders::attach_order(device, space));
    edits::settled(t, e)
}

pub fn detach(t: Table, device: u32) -> Answer
    ensures { result ≡ outcome t (host_edit t (detach_order device)) }
{
    let e = decided(t, host_orders::detach_order(device));
    edits::settled(t, e)
}

// The memory that a device gets to at an address, for reading or writing.
pub fn reach(t: Table, device: u32, address: u64, length: u64, write: bool) -> Reached
    ensures { result ≡ reached_by (host_edit t (reach_order device address length write)) }
{
    let e = decided(t, host_orders::reach_order(device, address, length, write));
    Reached {
        result: opening::signed_result(e.errno),
        address: e.value,
    }
}
