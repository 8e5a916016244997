// What a kernel links. Each entry takes any head, any slice of mapping records, any index beside them, any bytes, words and numbers, and answers; another number of records than
// 128, or an index that is not that of the records, is -117. A refusal writes nothing, but for -90 of IOVA_RANGES. Nobody else writes the table, and one call runs at a time. The
// words of the records are loaded, one call decides over them, head and index are written in place, and what is said of the records is stored.
#![tactic(auto)]

ghost use Rattle.rules_table.specs.Words.{head_in};
ghost use Rattle.rules_lent.specs.Entries.{LentCall, Preview, HostCall};
ghost use Rattle.rules_lent.specs.Explaining.{LentExplain};

use rules_table::Mapping;

// A driver's command. The reply is written into its bytes and the range area.
#[unsafe(no_mangle)]
pub extern "C" fn iommufd_call(
    h: &mut [u64; 865],
    ms: &mut [Mapping],
    beside: &mut [u64],
    request: u32,
    cmd: &mut [u8],
    area: &mut [u8],
) -> i32
    ensures { LentCall (head_in h.old) ms.old beside.old request cmd.old area.old result (head_in h.new) ms.new beside.new cmd.new area.new }
{
    let mut ws = [[0; 5]; 128];
    lent_records::load(ms, &mut ws);
    let e = lent_core::call(h, ms.len(), &ws, beside, request, cmd, area);
    lent_records::store(ms, e.records);
    e.result
}

// What the same command would answer now, reply and all; table and index stay.
#[unsafe(no_mangle)]
pub extern "C" fn iommufd_preview<'a>(
    h: &'a [u64; 865],
    ms: &[Mapping],
    beside: &'a [u64],
    request: u32,
    cmd: &mut [u8],
    area: &mut [u8],
) -> i32
    ensures { Preview (head_in h.now) ms.now beside.now request cmd.old area.old result (head_in h.now) ms.now beside.now cmd.new area.new }
{
    let mut ws = [[0; 5]; 128];
    lent_records::load(ms, &mut ws);
    lent_core::preview(h, ms.len(), &mut ws, beside, request, cmd, area)
}

// A host call: its kind, and its numbers in ten words. What it tells comes back in the first word.
#[unsafe(no_mangle)]
pub extern "C" fn iommufd_host(
    h: &mut [u64; 865],
    ms: &mut [Mapping],
    beside: &mut [u64],
    kind: u32,
    words: &mut [u64],
) -> i32
    ensures { HostCall (head_in h.old) ms.old beside.old kind words.old result (head_in h.new) ms.new beside.new words.new }
{
    let mut ws = [[0; 5]; 128];
    lent_records::load(ms, &mut ws);
    let e = lent_core::host(h, ms.len(), &ws, beside, kind, words);
    lent_records::store(ms, e.records);
    e.result
}

// Why a MAP or a COPY would be refused now (L1), in five words: a code for the check, its errno, the object or the mapping record, start and length of the longest free run.
#[unsafe(no_mangle)]
pub extern "C" fn iommufd_explain<'a>(
    h: &'a [u64; 865],
    ms: &[Mapping],
    beside: &'a [u64],
    request: u32,
    cmd: &'a [u8],
    words: &mut [u64; 5],
) -> i32
    ensures { LentExplain (head_in h.now) ms.now beside.now request cmd.now words.old result (head_in h.now) ms.now beside.now cmd.now words.new }
{
    let mut ws = [[0; 5]; 128];
    lent_records::load(ms, &mut ws);
    lent_explain::explain(h, ms.len(), &mut ws, beside, request, cmd, words)
}
