// The charge of any table: the pages of backings 1 to 128, each by the first record that has it.
ghost use Rattle.std.specs.Prelude.{true, ◌≡◌, ◌≤◌, ◌^◌};
ghost use Rattle.rules_table.specs.Charge.{backing_pages, charge};

use ranges::pages_touched;
use rules_table::Mapping;

fn pages_of(ms: &[Mapping; 128], backing: u32) -> u64
    ensures { (result ≡ backing_pages (λ m. true) ms.now backing) × (result ≤ 2 ^ 53) }
{
    for m in ms {
        if m.backing == backing {
            return pages_touched(m.memory, m.length);
        }
    }
    0
}

pub fn charge_of(ms: &[Mapping; 128]) -> u64
    ensures { result ≡ charge ms.now }
{
    let mut sum = 0;
    for backing in 0..128 {
        sum += pages_of(ms, backing + 1);
    }
    sum
}
