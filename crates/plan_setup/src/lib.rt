// The setup of a plan, call by call: spaces, devices, attachments. Each loop stops at the first call that is refused, and Err tells the table that it left.
#![tactic(auto)]

ghost use Rattle.std.specs.Prelude.{◌≡◌, ◌+◌, ◌*◌, ◌≤◌, length};
ghost use Rattle.wire.specs.Fields.{field};
ghost use Rattle.plan_shape.specs.Plan.{items_end, reserved_in, device_at, pair_at, devices, pairs, plan_end, plan_of};
ghost use Rattle.plan_setup.specs.Setting.{setup_by, with_space, with_spaces, with_device, with_devices, with_pair, with_pairs, set_up};

use plan_shape::{Section, item_end, section_end};
use rangelists::Reserved;
use rules_calls::Answer;
use rules_table::Table;

// The table after a call: Err where the call is refused, its result below zero.
#[tactic(auto, unfolding(crate::specs::Setting::setup_by))]
fn settled(a: Answer) -> Result<Table, Table>
    ensures { result ≡ setup_by a }
{
    if a.result < 0 {
        Err(a.table)
    } else {
        Ok(a.table)
    }
}

// ---- spaces

// IOAS_ALLOC through the door: size 12, flags 0, and no range area.
#[tactic(auto, unfolding(crate::specs::Setting::with_space))]
fn add_space(t: Table) -> Result<Table, Table>
    ensures { result ≡ with_space t }
{
    let mut cmd = [12, 0, 0, 0, 0, 0, 0, 0, 0, 0, 0, 0];
    settled(iommufd::call(t, 0x3B81, &mut cmd, &mut []))
}

fn add_spaces(first: Table, n: u32) -> Result<Table, Table>
    ensures { result ≡ with_spaces n first }
{
    let mut t = first;
    for _i in 0..n {
        t = add_space(t)?;
    }
    Ok(t)
}

// ---- devices

// The first 4 ranges of a device; bind refuses a larger count.
#[tactic(auto, unfolding(plan_shape::specs::Plan::reserved_in))]
fn reserved_in(area: &[u8], count: u32) -> Reserved
    requires { 16 * count ≤ length area.now }
    ensures { result ≡ reserved_in count area.now }
{
    Reserved {
        count,
        starts: cmd_space::column_of(area, 0, count),
        lasts: cmd_space::column_of(area, 8, count),
    }
}

#[tactic(auto, unfolding(crate::specs::Setting::with_device, plan_shape::specs::Plan::device_at, plan_shape::specs::Plan::part))]
fn add_device(t: Table, s: &[u8], at: usize) -> Result<Table, Table>
    requires { at + (12 + 16 * field 4 s.now (at + 8)) ≤ length s.now }
    ensures { result ≡ with_device (device_at s.now at) t }
{
    let bitmap = wire::read64(s, at);
    let count = wire::read32(s, at + 8);
    let from = at + 12;
    let to = from + 16 * (count as usize);
    let reserved = reserved_in(&s[from..to], count);
    settled(iommufd::bind(t, bitmap, reserved))
}

fn add_devices(first: Table, s: &[u8], n: u32, from: usize) -> Result<Table, Table>
    requires { (length s.now ≤ 65536) × (items_end Section.Devices n s.now from ≤ length s.now) }
    ensures { result ≡ with_devices (devices n s.now from) first }
{
    let mut t = first;
    let mut at = from;
    for _i in 0..n {
        t = add_device(t, s, at)?;
        at = item_end(s, Section::Devices, at);
    }
    Ok(t)
}

// ---- attachments

#[tactic(auto, unfolding(crate::specs::Setting::with_pair, plan_shape::specs::Plan::pair_at))]
fn add_pair(t: Table, s: &[u8], at: usize) -> Result<Table, Table>
    requires { at + 8 ≤ length s.now }
    ensures { result ≡ with_pair (pair_at s.now at) t }
{
    let device = wire::read32(s, at);
    let space = wire::read32(s, at + 4);
    settled(iommufd::attach(t, device, space))
}

fn add_pairs(first: Table, s: &[u8], n: u32, from: usize) -> Result<Table, Table>
    requires { (length s.now ≤ 65536) × (items_end Section.Attachments n s.now from ≤ length s.now) }
    ensures { result ≡ with_pairs (pairs n s.now from) first }
{
    let mut t = first;
    let mut at = from;
    for _i in 0..n {
        t = add_pair(t, s, at)?;
        at = item_end(s, Section::Attachments, at);
    }
    Ok(t)
}

// ---- all of it

// The limit and the three sections of a whole plan.
pub fn set_up(s: &[u8]) -> Result<Table, Table>
    requires { (length s.now ≤ 65536) × (plan_end s.now ≡ length s.now) }
    ensures { result ≡ set_up (plan_of s.now) }
{
    let fresh = settled(iommufd::fresh(wire::read64(s, 0)))?;
    let roomy = add_spaces(fresh, wire::read32(s, 8))?;
    let bound = add_devices(roomy, s, wire::read32(s, 12), 16)?;
    let at = section_end(s, Section::Devices, 12);
    add_pairs(bound, s, wire::read32(s, at), at + 4)
}
