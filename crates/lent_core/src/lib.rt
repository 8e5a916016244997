// A call on the head as words, the words of the mapping records and the index, which are lent. Head and index are written in place; what happens to the mapping records is
// handed back. Another number of records than 128 is -117, and then nothing is written.
#![tactic(auto)]

ghost use Rattle.lent_core.specs.Serving.{CallServed, PreviewServed, HostServed};

use index_search::Slots;
use lent_edit::Served;

// ---- commands

pub fn call(
    h: &mut [u64; 865],
    count: usize,
    ws: &[[u64; 5]; 128],
    beside: &mut [u64],
    request: u32,
    cmd: &mut [u8],
    area: &mut [u8],
) -> Served
    ensures { CallServed h.old count ws.now beside.old request cmd.old area.old result h.new beside.new cmd.new area.new }
{
    if count != lent_fresh::RECORDS {
        return lent_edit::refused(117);
    }
    let e = iommufd::decide(h, ws, beside, request, cmd, area);
    lent_edit::commit(h, e);
    let c = e.change;
    let v = index_search::slots_for(ws, beside, c);
    index_search::follow(ws, beside, c);
    lent_edit::answer(e, v)
}

// What the same command would answer; table and index stay. The words are lent as `&mut` because two `&` of a signature have to live equally long.
pub fn preview<'a>(
    h: &'a [u64; 865],
    count: usize,
    ws: &mut [[u64; 5]; 128],
    beside: &'a [u64],
    request: u32,
    cmd: &mut [u8],
    area: &mut [u8],
) -> i32
    ensures { PreviewServed h.now count ws.old beside.now request cmd.old area.old result cmd.new area.new }
{
    if count != lent_fresh::RECORDS {
        return opening::signed_result(117);
    }
    let e = iommufd::decide(h, ws, beside, request, cmd, area);
    opening::signed_result(e.errno)
}

// ---- host calls

pub fn host(
    h: &mut [u64; 865],
    count: usize,
    ws: &[[u64; 5]; 128],
    beside: &mut [u64],
    kind: u32,
    words: &mut [u64],
) -> Served
    ensures { HostServed h.old count ws.now beside.old kind words.old result h.new beside.new words.new }
{
    if words.len() < 10 {
        return lent_edit::refused(14);
    }
    if kind == 0 {
        return lent_fresh::fresh(h, count, beside, words[0]);
    }
    if 6 < kind {
        return lent_edit::refused(25);
    }
    let o = lent_order::order_in(kind, words);
    if count != lent_fresh::RECORDS {
        return lent_edit::refused(117);
    }
    let e = host_calls::decide_host(h, ws, beside, o);
    lent_order::tell(words, e.errno, e.value);
    lent_edit::commit(h, e);
    let none = Slots { first: 0, end: 0 };
    lent_edit::answer(e, none)
}
