// What a host call asks, as one order.
#![tactic(auto)]

ghost use Rattle.std.specs.Prelude.{◌≡◌};
ghost use Rattle.rules_calls.specs.Orders.{order_for, bind_order, attach_order, detach_order, reach_order, charge_order, next_order};

use rangelists::Reserved;
use rules_calls::{Act, Order};

// An order of ids alone.
fn plain_order(act: Act, first: u32, second: u32) -> Order
    ensures { result ≡ order_for act first second }
{
    Order {
        act,
        first,
        second,
        bitmap: 0,
        reserved: Reserved::empty(),
        address: 0,
        length: 0,
    }
}

pub fn bind_order(bitmap: u64, reserved: Reserved) -> Order
    ensures { result ≡ bind_order bitmap reserved }
{
    Order {
        bitmap,
        reserved,
        ..plain_order(Act::Bind, 0, 0)
    }
}

pub fn attach_order(device: u32, space: u32) -> Order
    ensures { result ≡ attach_order device space }
{
    plain_order(Act::Attach, space, device)
}

pub fn detach_order(device: u32) -> Order
    ensures { result ≡ detach_order device }
{
    plain_order(Act::Detach, device, 0)
}

pub fn reach_order(device: u32, address: u64, length: u64, write: bool) -> Order
    ensures { result ≡ reach_order device address length write }
{
    Order {
        address,
        length,
        ..plain_order(Act::Reach(write), device, 0)
    }
}

pub fn charge_order() -> Order
    ensures { result ≡ charge_order }
{
    plain_order(Act::Charge, 0, 0)
}

pub fn next_order(space: u32, address: u64) -> Order
    ensures { result ≡ next_order space address }
{
    Order {
        address,
        ..plain_order(Act::Next, space, 0)
    }
}
