// Small tests of mapping records, for the check of a table and for the searches.
#![tactic(auto)]

ghost use Rattle.std.specs.Prelude.{◌≡◌, ◌≤◌};
ghost use Rattle.ranges.specs.Ranges.{range};
ghost use Rattle.rules_table.specs.Records.{touches};
ghost use Rattle.rules_table.specs.Good.{differ};

use rules_table::Mapping;

// Whether n is of that space and has an address from first to last. No sum is made.
pub fn is_touched(space: u32, first: u64, last: u64, n: Mapping) -> bool
    requires { first ≤ last }
    ensures { result ≡ touches space (range first last) n }
{
    if n.space != space || last < n.address {
        return false;
    }
    first <= n.address || first - n.address < n.length
}

pub fn differs(m: Mapping, n: Mapping) -> bool
    ensures { result ≡ differ m n }
{
    let same = (m.memory == n.memory) & (m.length == n.length) & (m.founder == n.founder);
    (m.space != 0) & (n.space != 0) & (m.backing == n.backing) & !same
}
