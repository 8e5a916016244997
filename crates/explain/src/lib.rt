// The tool (L1): it takes a table and a MAP or a COPY by request and bytes, and names the first failing check, those of the opening too. The table is only read.
#![tactic(auto)]

ghost use Rattle.std.specs.Prelude.{List, ◌≡◌, ℕ, length, Some};
ghost use Rattle.rules_table.specs.Layout.{table_of};
ghost use Rattle.rules_table.specs.Words.{head_in, objects_in};
ghost use Rattle.rules_calls.specs.Gate.{table_with};
ghost use Rattle.rules_calls.specs.Requests.{request_of};
ghost use Rattle.rules_calls.specs.Map.{map_fields};
ghost use Rattle.rules_calls.specs.Copy.{copy_fields};
ghost use Rattle.layout_mappings.specs.Words.{records_of};
ghost use Rattle.rules_reasons.specs.declared.Reason.TheVariants.{Accepted};
ghost use Rattle.rules_reasons.specs.Reasons.{map_reason, copy_reason};
ghost use Rattle.rules_reasons.specs.Explain.{open_or, row_told, board_explained, explained};
ghost use Rattle.reason_words.specs.Words.{Tells};
ghost use Rattle.explain.specs.Answered.{opening_reason, Answered};

use check_table::GoodTable;
use landing::Target;
use rules_calls::{Command, Unopened};
use rules_reasons::Reason;
use rules_table::Table;

// What stood in the way of the opening.
fn opening_reason(opening: Result<Command, Unopened>) -> Reason
    ensures { result ≡ opening_reason opening }
{
    match opening {
        Ok(_) => Reason::Accepted,
        Err(Unopened::UnknownRequest) => Reason::Accepted,
        Err(Unopened::NoSizeField) => Reason::NoSizeField,
        Err(Unopened::SizeTooSmall) => Reason::SizeTooSmall,
        Err(Unopened::SizePastBytes) => Reason::SizePastBytes,
        Err(Unopened::TailNotZero) => Reason::TailNotZero,
    }
}

// Why a MAP is refused, over a good table and by what the check has found of it.
fn map_reason(good: &GoodTable, opened: Reason, cmd: &[u8]) -> Reason
    requires { opened ≡ open_or 40 cmd.now Accepted }
    ensures { Tells (open_or 40 cmd.now (map_reason (head_in good.now.head.now).limit (objects_in good.now.head.now) (records_of good.now.records.now) (map_fields cmd.now))) result }
{
    if !reason_words::is_accepted(opened) {
        return opened;
    }
    let space = wire::read32(cmd, 8);
    let target = Target {
        space,
        flags: wire::read32(cmd, 4),
        length: wire::read64(cmd, 24),
        address: wire::read64(cmd, 32),
    };
    let a = good.page_of(space);
    let zero = wire::read32(cmd, 12);
    let memory = wire::read64(cmd, 16);
    cmd_explain::map_reason(
        good.head,
        &good.mappings(),
        good.found.mappings,
        good.marks,
        a,
        target,
        zero,
        memory,
    )
}

// Why a COPY is.
fn copy_reason(good: &GoodTable, opened: Reason, cmd: &[u8]) -> Reason
    requires { opened ≡ open_or 40 cmd.now Accepted }
    ensures { Tells (open_or 40 cmd.now (copy_reason (objects_in good.now.head.now) (records_of good.now.records.now) (copy_fields cmd.now))) result }
{
    if !reason_words::is_accepted(opened) {
        return opened;
    }
    let space = wire::read32(cmd, 8);
    let source = wire::read32(cmd, 12);
    let target = Target {
        space,
        flags: wire::read32(cmd, 4),
        length: wire::read64(cmd, 16),
        address: wire::read64(cmd, 24),
    };
    let a = good.page_of(space);
    let b = good.page_of(source);
    let from = wire::read64(cmd, 32);
    cmd_explain::copy_reason(good.head, &good.mappings(), a, b, target, source, from)
}

// By the command: MAP and COPY are told, every other request is 25.
fn explain_command(good: &GoodTable, c: Command, opened: Reason, cmd: &[u8]) -> Result<Reason, u8>
    requires { opened ≡ open_or (request_of c).size cmd.now Accepted }
    ensures { Answered (row_told (Some c) (table_with (head_in good.now.head.now).limit (objects_in good.now.head.now) (records_of good.now.records.now)) cmd.now) result }
{
    match c {
        Command::Copy => Ok(copy_reason(good, opened, cmd)),
        Command::Map => Ok(map_reason(good, opened, cmd)),
        Command::Destroy
        | Command::IoasAlloc
        | Command::AllowIovas
        | Command::IovaRanges
        | Command::Unmap => Err(25),
    }
}

// Bad table, or an index that is not its own: 117; another request than MAP or COPY: 25; else what stood in the way.
pub fn decide<'a>(
    h: &'a [u64; 865],
    ws: &'a [[u64; 5]],
    ix: &'a [u64],
    request: u32,
    cmd: &'a [u8],
) -> Result<Reason, u8>
    requires { length ws.now ≡ 128 }
    ensures { Answered (board_explained record { table = table_of (head_in h.now) (records_of ws.now); index = ix.now } request cmd.now) result }
{
    let mut pages: [u64; 33] = [0; 33];
    let mut marks: [u8; 129] = [0; 129];
    let Some(found) = check_table::check(h, ws, ix, &mut pages, &mut marks) else {
        return Err(117);
    };
    let Some((c, _)) = opening::look_up(request) else {
        return Err(25);
    };
    let good = GoodTable {
        head: h,
        records: ws,
        index: ix,
        pages: &pages,
        marks: &marks,
        found,
    };
    let opened = opening_reason(opening::open(request, cmd));
    explain_command(&good, c, opened, cmd)
}

// The same of a table by value.
pub fn explain(t: Table, request: u32, cmd: &[u8]) -> Result<Reason, u8>
    ensures { result ≡ explained t request cmd.now }
{
    let os = t.objects;
    let h = layout_objects::head_of(t.limit, os);
    let ms = t.mappings;
    let ws = layout_mappings::words_of(ms);
    let mut ix: [u64; 128] = [0; 128];
    index_make::make(&ws, &mut ix);
    decide(&h, &ws, &ix, request, cmd)
}
