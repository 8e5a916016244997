// The bench program's plan: its bytes judged, its setup done, its commands run one by one. What a plan's bytes mean stands in plan_shape/specs/Plan.antt.
#![tactic(auto)]

ghost use Rattle.std.specs.Prelude.{◌≡◌};
ghost use Rattle.plan.specs.Running.{ready_of};

use plan_shape::Section;
use rules_table::Table;

mod whole;

pub use whole::run;

// A plan that is good: where its commands stand, how many they are, and the table after the setup.
#[derive(Clone, Copy)]
pub struct Ready {
    pub at: usize,
    pub count: u32,
    pub table: Table,
}

// Judges the whole plan and sets it up, before any of its commands is run. None where it is bad.
pub fn judge(s: &[u8]) -> Option<Ready>
    ensures { result ≡ ready_of s.now }
{
    if 65536 < s.len() {
        return None;
    }
    let attachments = plan_shape::section_end(s, Section::Devices, 12);
    let commands = plan_shape::section_end(s, Section::Attachments, attachments);
    let end = plan_shape::section_end(s, Section::Commands, commands);
    if end != s.len() {
        return None;
    }
    let Ok(table) = plan_setup::set_up(s) else {
        return None;
    };
    Some(Ready {
        at: commands + 4,
        count: wire::read32(s, commands),
        table,
    })
}
