// A fresh table in the caller's memory: head and index are written in place, and every mapping record is released.
#![tactic(auto)]

ghost use Rattle.std.specs.Prelude.{◌≡◌, length, replicate};
ghost use Rattle.lent_fresh.specs.Endings.{FreshServed};

use lent_edit::Served;
use lent_records::Records;

// The mapping records of a table.
pub const RECORDS: usize = 128;

// An empty table with a charge limit in pages: 22 above 2^36.
pub fn fresh(h: &mut [u64; 865], count: usize, beside: &mut [u64], limit: u64) -> Served
    ensures { FreshServed h.old count beside.old limit result h.new beside.new }
{
    if count != RECORDS || beside.len() != RECORDS {
        return lent_edit::refused(117);
    }
    if 0x10_0000_0000 < limit {
        return lent_edit::refused(22);
    }
    layout_objects::fresh(h, limit);
    beside.fill(0);
    Served {
        result: 0,
        records: Records::Wipe,
    }
}
