// IOAS_ALLOC, ALLOW_IOVAS and IOVA_RANGES past the gate: the fields of the command, what is decided, and the reply where there is one.
#![tactic(auto)]

ghost use Rattle.std.specs.Prelude.{List, ◌≡◌, ◌*◌, ◌%◌, ◌^◌, ◌≤◌, length};
ghost use Rattle.wire.specs.Fields.{field};
ghost use Rattle.rules_table.specs.Spaces.{alignment};
ghost use Rattle.rules_table.specs.Charge.{free_record};
ghost use Rattle.rules_table.specs.Words.{objects_in};
ghost use Rattle.table.specs.Checked.{page_at};
ghost use Rattle.rules_calls.specs.Edits.{refuse};
ghost use Rattle.rules_calls.specs.Answers.{replied};
ghost use Rattle.rules_calls.specs.Objects.{alloc_edit};
ghost use Rattle.cmd_space_bytes.specs.Replied.{RangesReply, RangesDone};
ghost use Rattle.edits.specs.Numbers.{allow_edit_at};
ghost use Rattle.checks.specs.Refused.{refused};
ghost use Rattle.edits.specs.Settled.{decided};

use checks::{Errno, fail_if};
use rules_calls::Edit;
use rules_table::Object;

// The new id, where there is one.
fn write_id(cmd: &mut [u8], errno: u8, id: u64)
    requires { 12 ≤ length cmd.old }
    ensures { cmd.new ≡ replied 4 8 errno (id % 2 ^ 32) cmd.old }
{
    if errno == 0 {
        wire::write32(cmd, 8, (id % 0x1_0000_0000) as u32);
    }
}

// IOAS_ALLOC: a new space in the lowest free record. Its id is written.
pub fn alloc(free: Option<usize>, cmd: &mut [u8]) -> Edit
    requires { 12 ≤ length cmd.old }
    ensures { (os : List Object) → length os ≡ 32 → free ≡ free_record os
        → (result ≡ alloc_edit os (field 4 cmd.old 4)) × (cmd.new ≡ replied 4 8 result.errno result.value cmd.old) }
{
    let e = cmd_space::decide_alloc(free, wire::read32(cmd, 4));
    write_id(cmd, e.errno, e.value);
    e
}

// ALLOW_IOVAS: the allow list of a space, from the range area.
pub fn allow<'a>(h: &'a [u64; 865], cmd: &'a [u8], area: &'a [u8]) -> Edit
    requires { 24 ≤ length cmd.now }
    ensures { result ≡ allow_edit_at (objects_in h.now)
        (field 4 cmd.now 4) (field 4 cmd.now 8) (field 4 cmd.now 12) area.now }
{
    let space = wire::read32(cmd, 4);
    let count = wire::read32(cmd, 8);
    let zero = wire::read32(cmd, 12);
    cmd_space::decide_allow(h, space, count, zero, area)
}

// The reply of IOVA_RANGES: the full number of ranges and the alignment a, and as many ranges as there is room for. The answer is that number.
fn write_ranges(
    h: &[u64; 865],
    a: u64,
    space: u32,
    count: u32,
    cmd: &mut [u8],
    area: &mut [u8],
) -> usize
    requires { (32 ≤ length cmd.old) × (16 * count ≤ length area.old) }
    ensures { a ≡ alignment (objects_in h.now) space
        → RangesReply (objects_in h.now) space count result cmd.old cmd.new area.old area.new }
{
    let full = reserved_ranges::write_free(h, space, count as usize, area);
    wire::write32(cmd, 8, full as u32);
    wire::write64(cmd, 24, a);
    full
}

// The reply of IOVA_RANGES, or why there is none; 90 comes after it. a is the alignment that the check found for the command's space, 0 where it is no space.
fn answer_ranges(h: &[u64; 865], a: u64, cmd: &mut [u8], area: &mut [u8]) -> Result<Edit, Errno>
    requires { 32 ≤ length cmd.old }
    ensures { a ≡ page_at (objects_in h.now) (field 4 cmd.old 4)
        → (decided result ≡ refuse (refused result))
        × RangesDone (objects_in h.now) (refused result) cmd.old cmd.new area.old area.new }
{
    let space = wire::read32(cmd, 4);
    let count = wire::read32(cmd, 8);
    let zero = wire::read32(cmd, 12);
    cmd_space::ranges_checks(a != 0, count, zero, area.len())?;
    let full = write_ranges(h, a, space, count, cmd, area);
    fail_if((count as usize) < full, Errno::EMSGSIZE)?;
    Ok(edits::tell(0))
}

// IOVA_RANGES: what no attached device reserves, as the fewest ascending ranges, with the alignment. It changes no table: its edit carries the errno alone.
pub fn ranges(h: &[u64; 865], a: u64, cmd: &mut [u8], area: &mut [u8]) -> Edit
    requires { 32 ≤ length cmd.old }
    ensures { a ≡ page_at (objects_in h.now) (field 4 cmd.old 4)
        → (result ≡ refuse result.errno)
        × RangesDone (objects_in h.now) result.errno cmd.old cmd.new area.old area.new }
{
    edits::decided(answer_ranges(h, a, cmd, area))
}
