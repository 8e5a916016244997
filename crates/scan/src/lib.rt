// What MAP and COPY ask of the mapping records for a new one: a released record and a backing number.
#![tactic(auto)]

ghost use Rattle.std.specs.Prelude.{◌≡◌, List, ℕ, eqb, length, get_or};
ghost use Rattle.lists.specs.Below.{lowest};
ghost use Rattle.rules_table.specs.Charge.{free_mapping};
ghost use Rattle.layout_mappings.specs.Words.{records_of};
ghost use Rattle.check_mappings.specs.Told.{Told};
ghost use Rattle.scan.specs.Surveyed.{survey_of};

use check_mappings::Pass;

// For MAP and COPY: the lowest released slot, the lowest backing number that is not in use, and the charge.
#[derive(Clone, Copy)]
pub struct Survey {
    pub free: Option<usize>,
    pub backing: Option<usize>,
    pub charge: u64,
}

// The lowest released slot.
pub fn free_record(ws: &[[u64; 5]]) -> Option<usize>
    ensures { result ≡ free_mapping (records_of ws.now) }
{
    for i in 0..ws.len() {
        if layout_mappings::space_at(ws, i) == 0 {
            return Some(i);
        }
    }
    None
}

// The lowest number from 1 on that has no mark.
fn lowest_unmarked(marks: &[u8]) -> Option<usize>
    requires { length marks.now ≡ 129 }
    ensures { result ≡ lowest (λ b. eqb (get_or marks.now b 0) 0) 128 1 }
{
    for b in 1..129 {
        if marks[b] == 0 {
            return Some(b);
        }
    }
    None
}

// From what the check has found: only the released slot is looked for.
pub fn survey_of<'a>(ws: &'a [[u64; 5]], p: Pass, marks: &'a [u8]) -> Survey
    requires { length marks.now ≡ 129 }
    ensures { (pages : List ℕ) → Told pages (records_of ws.now) p marks.now → result ≡ survey_of (records_of ws.now) }
{
    let free = free_record(ws);
    let backing = lowest_unmarked(marks);
    Survey {
        free,
        backing,
        charge: p.charge,
    }
}
