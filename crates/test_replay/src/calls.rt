// One call for each record, by its operation: its name, its result, what it wrote.
use crate::reading::list;
use crate::replies::bytes;
use crate::{reasons, stored};
use program_lines::{half, number, signed, text, word};
use rules_table::Table;

pub fn answer(t: Table, operation: u32, body: &[u8]) -> Table {
    match operation {
        1 => fresh(body),
        2 => bind(t, body),
        3 => attach(t, body),
        4 => detach(t, body),
        5 => reach(t, body),
        6 => replied(t, 0x3B81, b"alloc", body),
        7 => destroy(t, body),
        8 => allow(t, body),
        9 => ranges(t, body),
        10 => stored::mapping(t, body),
        11 => stored::object(t, body),
        12 => stored::limit(t, body),
        13 => replied(t, 0x3B85, b"map", body),
        14 => replied(t, 0x3B83, b"copy", body),
        15 => replied(t, 0x3B86, b"unmap", body),
        16 => replied(t, 0x3B87, b"other", body),
        17 => reasons::why(t, body),
        _ => unknown(t),
    }
}

// Where there is no such operation, or its body is cut or too long.
pub fn unknown(t: Table) -> Table {
    text(b"unknown operation");
    t
}

// The call's name and its result.
fn told(name: &[u8], number: i32) {
    text(name);
    signed(number);
}

fn fresh(body: &[u8]) -> Table {
    let a = iommufd::fresh(word(body, 0));
    told(b"fresh", a.result);
    a.table
}

fn bind(t: Table, body: &[u8]) -> Table {
    let l = list(body, half(body, 2), 2);
    let a = iommufd::bind(t, word(body, 0), l);
    told(b"bind", a.result);
    a.table
}

fn attach(t: Table, body: &[u8]) -> Table {
    let a = iommufd::attach(t, half(body, 0), half(body, 1));
    told(b"attach", a.result);
    a.table
}

fn detach(t: Table, body: &[u8]) -> Table {
    let a = iommufd::detach(t, half(body, 0));
    told(b"detach", a.result);
    a.table
}

fn reach(t: Table, body: &[u8]) -> Table {
    let write = half(body, 1) != 0;
    let r = iommufd::reach(t, half(body, 0), word(body, 1), word(body, 2), write);
    text(b"reach");
    signed(r.result);
    number(r.address);
    t
}

// The body is the command. It is changed, so it is copied. The result and the command after it.
fn replied(t: Table, request: u32, name: &[u8], body: &[u8]) -> Table {
    let mut buffer = [0; 64];
    let Some(cmd) = copied(body, &mut buffer) else {
        return unknown(t);
    };
    let a = iommufd::call(t, request, cmd, &mut []);
    told(name, a.result);
    bytes(cmd);
    a.table
}

fn destroy(t: Table, body: &[u8]) -> Table {
    let mut buffer = [0; 64];
    let Some(cmd) = copied(body, &mut buffer) else {
        return unknown(t);
    };
    let a = iommufd::call(t, 0x3B80, cmd, &mut []);
    told(b"destroy", a.result);
    a.table
}

fn allow(t: Table, body: &[u8]) -> Table {
    let mut buffer = [0; 64];
    let mut room = [0; 2048];
    let Some((cmd, area)) = both_copied(body, &mut buffer, &mut room) else {
        return unknown(t);
    };
    let a = iommufd::call(t, 0x3B82, cmd, area);
    told(b"allow", a.result);
    a.table
}

fn ranges(t: Table, body: &[u8]) -> Table {
    let mut buffer = [0; 64];
    let mut room = [0; 2048];
    let Some((cmd, area)) = both_copied(body, &mut buffer, &mut room) else {
        return unknown(t);
    };
    let a = iommufd::call(t, 0x3B84, cmd, area);
    told(b"ranges", a.result);
    bytes(cmd);
    bytes(area);
    a.table
}

// The command behind a u64 that counts its bytes, then the range area: a copy of each.
fn both_copied<'a>(
    body: &[u8],
    buffer: &'a mut [u8],
    room: &'a mut [u8],
) -> Option<(&'a mut [u8], &'a mut [u8])> {
    let (count, rest) = body.split_first_chunk()?;
    let (head, tail) = rest.split_at_checked(u64::from_le_bytes(*count) as usize)?;
    Some((copied(head, buffer)?, copied(tail, room)?))
}

// A copy in a buffer, if that has the room.
fn copied<'a>(bytes: &[u8], buffer: &'a mut [u8]) -> Option<&'a mut [u8]> {
    let copy = buffer.get_mut(..bytes.len())?;
    copy.copy_from_slice(bytes);
    Some(copy)
}
