// MAP, COPY and UNMAP past the gate: the fields of the command, what is decided, and the reply where it is accepted. A refusal writes no byte.
#![tactic(auto)]

ghost use Rattle.std.specs.Prelude.{true, List, ◌≡◌, ℕ, ◌+◌, ◌≤◌, ◌<◌, length};
ghost use Rattle.lists.specs.Each.{Each};
ghost use Rattle.wire.specs.Fields.{field};
ghost use Rattle.rules_table.specs.declared.Object.{Object};
ghost use Rattle.rules_table.specs.Records.{space_at};
ghost use Rattle.table.specs.Checked.{record_ok, page_at};
ghost use Rattle.rules_table.specs.Words.{head_in, objects_in};
ghost use Rattle.layout_mappings.specs.Words.{records_of};
ghost use Rattle.check_mappings.specs.Told.{Told};
ghost use Rattle.rules_calls.specs.Answers.{replied};
ghost use Rattle.rules_calls.specs.Map.{map_fields, map_edit};
ghost use Rattle.rules_calls.specs.Copy.{copy_fields, copy_edit};
ghost use Rattle.rules_calls.specs.Unmap.{unmap_fields, unmap_edit};

use check_mappings::Pass;
use index_search::Mappings;
use landing::Target;
use rules_calls::Edit;

// The reply, where there is one: a number of 8 bytes.
fn write_value(cmd: &mut [u8], off: usize, errno: u8, value: u64)
    requires { off + 8 ≤ length cmd.old }
    ensures { cmd.new ≡ replied 8 off errno value cmd.old }
{
    if errno == 0 {
        wire::write64(cmd, off, value);
    }
}

// MAP: a new mapping with a backing of its own. Its address is written, also where it was fixed. a is the alignment of the space, 0 where there is none.
pub fn map(h: &[u64; 865], ms: &Mappings, p: Pass, marks: &[u8], a: u64, cmd: &mut [u8]) -> Edit
    requires { (40 ≤ length cmd.old) × (length marks.now ≡ 129) × (0 < a → 0 < field 4 cmd.old 8) × ((pages : List ℕ) × Told pages (records_of ms.now.records.now) p marks.now) }
    ensures { (a ≡ page_at (objects_in h.now) (field 4 cmd.old 8) → result ≡ map_edit (head_in h.now).limit (objects_in h.now) (records_of ms.now.records.now) (map_fields cmd.old))
        × (cmd.new ≡ replied 8 32 result.errno result.value cmd.old) }
{
    let target = Target {
        space: wire::read32(cmd, 8),
        flags: wire::read32(cmd, 4),
        length: wire::read64(cmd, 24),
        address: wire::read64(cmd, 32),
    };
    let zero = wire::read32(cmd, 12);
    let memory = wire::read64(cmd, 16);
    let e = cmd_map::decide_map(h, ms, p, marks, a, target, zero, memory);
    write_value(cmd, 32, e.errno, e.value);
    e
}

// COPY: a mapping of a source's memory and backing in a target space. a and b are the alignments of the two.
pub fn copy(h: &[u64; 865], ms: &Mappings, a: u64, b: u64, cmd: &mut [u8]) -> Edit
    requires { (40 ≤ length cmd.old) × (0 < a → 0 < field 4 cmd.old 8) × (0 < b → 0 < field 4 cmd.old 12) }
    ensures { (a ≡ page_at (objects_in h.now) (field 4 cmd.old 8) → b ≡ page_at (objects_in h.now) (field 4 cmd.old 12) → result ≡ copy_edit (objects_in h.now) (records_of ms.now.records.now) (copy_fields cmd.old))
        × (cmd.new ≡ replied 8 24 result.errno result.value cmd.old) }
{
    let target = Target {
        space: wire::read32(cmd, 8),
        flags: wire::read32(cmd, 4),
        length: wire::read64(cmd, 16),
        address: wire::read64(cmd, 24),
    };
    let source = wire::read32(cmd, 12);
    let from = wire::read64(cmd, 32);
    let e = cmd_copy::decide_copy(h, ms, a, b, target, source, from);
    write_value(cmd, 24, e.errno, e.value);
    e
}

// UNMAP: the mappings inside a range go, or all of the space. Their bytes are written.
pub fn unmap(known: bool, ms: &Mappings, cmd: &mut [u8]) -> Edit
    requires { (24 ≤ length cmd.old) × (known ≡ true → 0 < field 4 cmd.old 4) × ((os : List Object) × Each (λ m. record_ok os m ≡ true) (records_of ms.now.records.now)) }
    ensures { ((os : List Object) → known ≡ space_at os (field 4 cmd.old 4) → result ≡ unmap_edit os (records_of ms.now.records.now) (unmap_fields cmd.old))
        × (cmd.new ≡ replied 8 16 result.errno result.value cmd.old) }
{
    let space = wire::read32(cmd, 4);
    let address = wire::read64(cmd, 8);
    let length = wire::read64(cmd, 16);
    let e = cmd_unmap::decide_unmap(known, ms, space, address, length);
    write_value(cmd, 16, e.errno, e.value);
    e
}
