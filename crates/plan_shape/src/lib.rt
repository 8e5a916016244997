// Where the items and the sections of a plan end. An end past the last byte is given as one past the length, so that no sum is large.
#![tactic(auto)]

ghost use Rattle.std.specs.Prelude.{◌≡◌, ◌+◌, ◌≤◌, min, length};
ghost use Rattle.plan_shape.specs.Plan.{item_end, device_end, command_end, section_end};

// The sections whose items have bytes.
#[derive(Clone, Copy)]
pub enum Section {
    Devices,
    Attachments,
    Commands,
}

// The place so many bytes on.
fn end_after(s: &[u8], at: usize, size: usize) -> usize
    requires { length s.now ≤ 65536 }
    ensures { result ≡ min (at + size) (length s.now + 1) }
{
    at.saturating_add(size).min(s.len() + 1)
}

#[tactic(auto, unfolding(crate::specs::Plan::device_end))]
fn device_end(s: &[u8], at: usize) -> usize
    requires { length s.now ≤ 65536 }
    ensures { result ≡ min (device_end s.now at) (length s.now + 1) }
{
    let known = end_after(s, at, 12);
    if s.len() < known {
        return known;
    }
    let count = wire::read32(s, at + 8) as usize;
    end_after(s, at, 12 + 16 * count)
}

#[tactic(auto, unfolding(crate::specs::Plan::command_end))]
fn command_end(s: &[u8], at: usize) -> usize
    requires { length s.now ≤ 65536 }
    ensures { result ≡ min (command_end s.now at) (length s.now + 1) }
{
    let known = end_after(s, at, 12);
    if s.len() < known {
        return known;
    }
    let bytes = wire::read32(s, at + 4) as usize;
    let area = wire::read32(s, at + 8) as usize;
    end_after(s, at, 12 + bytes + area)
}

#[tactic(auto, unfolding(crate::specs::Plan::item_end))]
pub fn item_end(s: &[u8], section: Section, at: usize) -> usize
    requires { length s.now ≤ 65536 }
    ensures { result ≡ min (item_end section s.now at) (length s.now + 1) }
{
    match section {
        Section::Devices => device_end(s, at),
        Section::Attachments => end_after(s, at, 8),
        Section::Commands => command_end(s, at),
    }
}

// The end of the section whose count stands at a place. It stops at an item that is cut, whatever the count.
#[tactic(auto, using(crate::proofs::Ending::section_start, crate::proofs::Ending::section_cut, crate::proofs::Ending::items_cut, crate::proofs::Ending::items_on, crate::proofs::Ending::items_done))]
pub fn section_end(s: &[u8], section: Section, at: usize) -> usize
    requires { length s.now ≤ 65536 }
    ensures { result ≡ min (section_end section s.now at) (length s.now + 1) }
{
    let first = end_after(s, at, 4);
    if s.len() < first {
        return first;
    }
    let count = wire::read32(s, at);
    let mut end = first;
    for _i in 0..count {
        end = item_end(s, section, end);
        if s.len() < end {
            return end;
        }
    }
    end
}
