// Why a MAP or a COPY is refused over a good table (L1), by the numbers of the command: check after check, as the deciders ask them.
#![tactic(auto)]

ghost use Rattle.std.specs.Prelude.{List, [], ◌∷◌, ◌≡◌, ℕ, ◌≤◌, ◌<◌, length, not, ◌&&◌, ◌||◌, eqb};
ghost use Rattle.lists.specs.Checks.{when, first};
ghost use Rattle.ranges.specs.Ranges.{U64MAX};
ghost use Rattle.rules_table.specs.Words.{head_in, objects_in};
ghost use Rattle.table.specs.Checked.{page_at};
ghost use Rattle.layout_mappings.specs.Words.{records_of};
ghost use Rattle.check_mappings.specs.Told.{Told};
ghost use Rattle.rules_table.specs.Flags.{unknown, writeable};
ghost use Rattle.rules_calls.specs.Map.{room_checks};
ghost use Rattle.rules_reasons.specs.declared.Reason.{Reason};
ghost use Rattle.rules_reasons.specs.declared.Reason.TheVariants.{Accepted};
ghost use Rattle.rules_reasons.specs.Reasons.{named, room_names};
ghost use Rattle.reason_words.specs.Words.{Tells};
ghost use Rattle.cmd_explain.specs.Numbered.{told_or, number_checks, map_reason_at, copy_reason_at};

use check_mappings::Pass;
use index_search::Mappings;
use landing::Target;
use rules_reasons::Reason;
use rules_table::Mapping;

// A check: its name where it fires.
#[tactic(auto, unfolding(lists::specs::Checks::first))]
fn name_if(fires: bool, name: Reason) -> Result<(), Reason>
    ensures { (rest : Reason) → told_or result rest ≡ first (when fires name ∷ []) rest }
{
    if fires { Err(name) } else { Ok(()) }
}

// The name of the check that fired.
fn told(checked: Result<(), Reason>) -> Reason
    ensures { result ≡ told_or checked Accepted }
{
    match checked {
        Ok(()) => Reason::Accepted,
        Err(name) => name,
    }
}

// The checks that MAP and COPY make on their numbers before they ask for a space. `start` is the memory of a MAP or the source address of a COPY, and `past` the name of its check.
fn number_reason(unknown: bool, t: Target, start: u64, past: Reason) -> Result<(), Reason>
    ensures { (rest : Reason) → told_or result rest ≡ first (number_checks unknown t.flags t.length t.address start past) rest }
{
    name_if(unknown, Reason::Flags)?;
    name_if(cmd_map::has_no_right(t.flags), Reason::NoRight)?;
    name_if(cmd_map::is_wrong_length(t.length), Reason::WrongLength)?;
    name_if(ranges::passes_max(start, t.length), past)?;
    name_if(
        cmd_map::fixed_passes(t.flags, t.address, t.length),
        Reason::AddressPasses,
    )
}

// A free record, and the charge within the limit.
fn room_reason(free: Option<usize>, limit: u64, charge: u64, pages: u64) -> Result<(), Reason>
    ensures { (rest : Reason) → told_or result rest ≡ first (named (room_checks free limit charge pages) room_names) rest }
{
    name_if(free.is_none(), Reason::NoRecord)?;
    name_if(cmd_map::over_limit(limit, charge, pages), Reason::OverLimit)
}

// Flags above bit 2, or a reserved field that is not 0.
fn is_strange(flags: u32, zero: u32) -> bool
    ensures { result ≡ (unknown 3 flags || not (eqb zero 0)) }
{
    opening::has_unknown(flags) || zero != 0
}

// The right to write is the founder's.
fn is_denied(flags: u32, m: Mapping) -> bool
    ensures { result ≡ (writeable flags && not (eqb m.founder 1)) }
{
    opening::is_writeable(flags) && m.founder != 1
}

// The checks of MAP, by name.
fn map_checked(
    h: &[u64; 865],
    ms: &Mappings,
    p: Pass,
    marks: &[u8],
    a: u64,
    t: Target,
    zero: u32,
    memory: u64,
) -> Result<(), Reason>
    requires { (length marks.now ≡ 129) × (0 < a → 0 < t.space) × (t.length ≤ U64MAX) × ((pages : List ℕ) × Told pages (records_of ms.now.records.now) p marks.now) }
    ensures { a ≡ page_at (objects_in h.now) t.space → Tells (map_reason_at (head_in h.now).limit (objects_in h.now) (records_of ms.now.records.now) t zero memory) (told_or result Accepted) }
{
    number_reason(is_strange(t.flags, zero), t, memory, Reason::MemoryPasses)?;
    if a == 0 {
        return Err(Reason::NoSpace);
    }
    let place = reason_place::place_reason(h, ms, a, t);
    if !reason_words::is_accepted(place) {
        return Err(place);
    }
    let v = scan::survey_of(ms.records, p, marks);
    let pages = ranges::pages_touched(memory, t.length);
    room_reason(v.free, layout_objects::limit_of(h), v.charge, pages)
}

// Why a MAP is refused, by what `cmd_map::decide_map` decides by.
pub fn map_reason(
    h: &[u64; 865],
    ms: &Mappings,
    p: Pass,
    marks: &[u8],
    a: u64,
    t: Target,
    zero: u32,
    memory: u64,
) -> Reason
    requires { (length marks.now ≡ 129) × (0 < a → 0 < t.space) × (t.length ≤ U64MAX) × ((pages : List ℕ) × Told pages (records_of ms.now.records.now) p marks.now) }
    ensures { a ≡ page_at (objects_in h.now) t.space → Tells (map_reason_at (head_in h.now).limit (objects_in h.now) (records_of ms.now.records.now) t zero memory) result }
{
    told(map_checked(h, ms, p, marks, a, t, zero, memory))
}

// The checks of COPY, by name.
fn copy_checked(
    h: &[u64; 865],
    ms: &Mappings,
    a: u64,
    b: u64,
    t: Target,
    source: u32,
    from: u64,
) -> Result<(), Reason>
    requires { (0 < a → 0 < t.space) × (0 < b → 0 < source) × (t.length ≤ U64MAX) }
    ensures { a ≡ page_at (objects_in h.now) t.space → b ≡ page_at (objects_in h.now) source → Tells (copy_reason_at (objects_in h.now) (records_of ms.now.records.now) t source from) (told_or result Accepted) }
{
    number_reason(opening::has_unknown(t.flags), t, from, Reason::SourcePasses)?;
    if a == 0 {
        return Err(Reason::NoSpace);
    }
    if b == 0 {
        return Err(Reason::NoSourceSpace);
    }
    let Some(m) = ms.find_source(source, from, t.length) else {
        return Err(Reason::NoSource);
    };
    if is_denied(t.flags, m) {
        return Err(Reason::NotWriteable);
    }
    let place = reason_place::place_reason(h, ms, a, t);
    if !reason_words::is_accepted(place) {
        return Err(place);
    }
    name_if(scan::free_record(ms.records).is_none(), Reason::NoRecord)
}

// Why a COPY is refused, by what `cmd_copy::decide_copy` decides by.
pub fn copy_reason(
    h: &[u64; 865],
    ms: &Mappings,
    a: u64,
    b: u64,
    t: Target,
    source: u32,
    from: u64,
) -> Reason
    requires { (0 < a → 0 < t.space) × (0 < b → 0 < source) × (t.length ≤ U64MAX) }
    ensures { a ≡ page_at (objects_in h.now) t.space → b ≡ page_at (objects_in h.now) source → Tells (copy_reason_at (objects_in h.now) (records_of ms.now.records.now) t source from) result }
{
    told(copy_checked(h, ms, a, b, t, source, from))
}
