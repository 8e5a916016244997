// What the words of a host call ask, and what it tells in them.
#![tactic(auto)]

ghost use Rattle.std.specs.Prelude.{◌≤◌, ◌≡◌, length, Some};
ghost use Rattle.rules_lent.specs.Entries.{order_in, reserved_in};
ghost use Rattle.lent_order.specs.Orders.{told_in};

use rangelists::Reserved;
use rules_calls::Order;

fn reserved_in(words: &[u64]) -> Reserved
    requires { 10 ≤ length words.now }
    ensures { result ≡ reserved_in words.now }
{
    let starts = [words[2], words[3], words[4], words[5]];
    let lasts = [words[6], words[7], words[8], words[9]];
    Reserved {
        count: layout::low(words[1]),
        starts,
        lasts,
    }
}

// What a kind from 1 to 6 asks.
pub fn order_in(kind: u32, words: &[u64]) -> Order
    requires { (10 ≤ length words.now) × (1 ≤ kind) × (kind ≤ 6) }
    ensures { order_in kind words.now ≡ Some result }
{
    match kind {
        1 => host_orders::bind_order(words[0], reserved_in(words)),
        2 => host_orders::attach_order(layout::low(words[0]), layout::low(words[1])),
        3 => host_orders::detach_order(layout::low(words[0])),
        4 => host_orders::reach_order(layout::low(words[0]), words[1], words[2], words[3] != 0),
        5 => host_orders::charge_order(),
        _ => host_orders::next_order(layout::low(words[0]), words[1]),
    }
}

// What an edit tells stands in the first word.
pub fn tell(words: &mut [u64], errno: u8, value: u64)
    requires { 10 ≤ length words.old }
    ensures { words.new ≡ told_in errno value words.old }
{
    if errno == 0 {
        words[0] = value;
    }
}
