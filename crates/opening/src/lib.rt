// Opening a command: the request table, the size field, the unknown tail. Then the flags of MAP and COPY, and the signed result of a call.
#![tactic(auto)]

ghost use Rattle.std.specs.Prelude.{◌≡◌, ◌≤◌, pos, length, Some, Err};
ghost use Rattle.rules_calls.specs.Requests.{request_of, lookup, row_of};
ghost use Rattle.rules_calls.specs.Opening.{tail, open_row, opened, opening_errno};
ghost use Rattle.rules_table.specs.Flags.{bit, unknown};
ghost use Rattle.rules_calls.specs.Results.{signed_result};

use rules_calls::{Command, Unopened};

// The table of requests: the command of a number, and the bytes of its fields.
pub fn look_up(request: u32) -> Option<(Command, usize)>
    ensures { result ≡ row_of (lookup request) }
{
    match request {
        0x3B80 => Some((Command::Destroy, 8)),
        0x3B81 => Some((Command::IoasAlloc, 12)),
        0x3B82 => Some((Command::AllowIovas, 24)),
        0x3B83 => Some((Command::Copy, 40)),
        0x3B84 => Some((Command::IovaRanges, 32)),
        0x3B85 => Some((Command::Map, 40)),
        0x3B86 => Some((Command::Unmap, 24)),
        _ => None,
    }
}

// The bytes of a command's fields.
pub fn known_size(command: Command) -> usize
    ensures { result ≡ (request_of command).size }
{
    match command {
        Command::Destroy => 8,
        Command::IoasAlloc => 12,
        Command::AllowIovas => 24,
        Command::Copy => 40,
        Command::IovaRanges => 32,
        Command::Map => 40,
        Command::Unmap => 24,
    }
}

// The bytes beyond the known size, up to the size field: a part of the caller's own buffer.
pub fn unknown_tail<'a>(cmd: &'a [u8], known: usize, size: usize) -> &'a [u8]
    requires { (known ≤ size) × (size ≤ length cmd.now) }
    ensures { result.now ≡ tail known size cmd.now }
{
    &cmd[known..size]
}

// The checks of a listed request, in order.
fn open_listed(command: Command, known: usize, cmd: &[u8]) -> Result<Command, Unopened>
    requires { known ≡ (request_of command).size }
    ensures { result ≡ open_row (Some command) cmd.now }
{
    if cmd.len() < 4 {
        return Err(Unopened::NoSizeField);
    }
    let size = wire::read32(cmd, 0) as usize;
    if size < known {
        return Err(Unopened::SizeTooSmall);
    }
    if cmd.len() < size {
        return Err(Unopened::SizePastBytes);
    }
    if !wire::all_zero(unknown_tail(cmd, known, size)) {
        return Err(Unopened::TailNotZero);
    }
    Ok(command)
}

// Opens a command, after the table check.
pub fn open(request: u32, cmd: &[u8]) -> Result<Command, Unopened>
    ensures { result ≡ opened request cmd.now }
{
    let Some((command, known)) = look_up(request) else {
        return Err(Unopened::UnknownRequest);
    };
    open_listed(command, known, cmd)
}

// The errno of a command that is not opened.
pub fn unopened_errno(why: Unopened) -> u8
    ensures { result ≡ opening_errno (Err why) }
{
    match why {
        Unopened::UnknownRequest => 25,
        Unopened::NoSizeField => 14,
        Unopened::SizeTooSmall => 22,
        Unopened::SizePastBytes => 14,
        Unopened::TailNotZero => 7,
    }
}

// The same, 0 where one is.
pub fn opening_errno(opening: Result<Command, Unopened>) -> u8
    ensures { result ≡ opening_errno opening }
{
    match opening {
        Ok(_) => 0,
        Err(why) => unopened_errno(why),
    }
}

// Flags of MAP and COPY: bit 0 fixed address, bit 1 writeable, bit 2 readable.
pub fn is_fixed(flags: u32) -> bool
    ensures { result ≡ bit 0 flags }
{
    flags & 1 == 1
}

pub fn is_writeable(flags: u32) -> bool
    ensures { result ≡ bit 1 flags }
{
    (flags >> 1) & 1 == 1
}

pub fn is_readable(flags: u32) -> bool
    ensures { result ≡ bit 2 flags }
{
    (flags >> 2) & 1 == 1
}

// Whether a bit above bit 2 is set.
pub fn has_unknown(flags: u32) -> bool
    ensures { result ≡ unknown 3 flags }
{
    flags & 0xFFFF_FFF8 != 0
}

// The signed result of a call: 0, or the negative of the errno. An errno is a u8, so that its negative always fits.
pub fn signed_result(errno: u8) -> i32
    ensures { result ≡ signed_result errno }
{
    -i32::from(errno)
}

// Bind's result: the new id.
pub fn id_result(id: u8) -> i32
    ensures { result ≡ pos id }
{
    i32::from(id)
}
