// What runs before every call: whether a table is good and the index is that of its mappings. What it finds on the way is handed on, so that nobody works it out again.
#![tactic(auto)]

ghost use Rattle.std.specs.Prelude.{◌≡◌, length, replicate};
ghost use Rattle.std.proofs.Props.{props};
ghost use Rattle.rules_table.specs.Words.{head_in, objects_in};
ghost use Rattle.table.specs.Checked.{page_at};
ghost use Rattle.layout_mappings.specs.Words.{records_of};
ghost use Rattle.check_table.specs.Known.{Passes, Known, kept-prop, Judged, Checked};

use check_mappings::Pass;
use index_search::Mappings;

// Of a good table with the index of its mappings: the lowest free object record, what the pass over the mapping records tells, and how many numbers the index lists.
#[derive(Clone, Copy)]
pub struct Findings {
    pub object: Option<usize>,
    pub mappings: Pass,
    pub listed: usize,
}

// A good table with the index of its mappings, and what the check has found of it.
#[derive(Clone, Copy)]
pub struct GoodTable<'a> {
    pub head: &'a [u64; 865],
    pub records: &'a [[u64; 5]],
    pub index: &'a [u64],
    pub pages: &'a [u64],
    pub marks: &'a [u8],
    pub found: Findings,
    pub ghost known: { Known (objects_in head.now) (records_of records.now) index.now pages.now marks.now found } by { Prim.hlevel (props, kept-prop) },
}

impl GoodTable<'_> {
    // The mappings, by their index.
    pub fn mappings(&self) -> Mappings<'_>
        ensures { (result.records.now ≡ self.now.records.now) × (result.index.now ≡ self.now.index.now) × (result.listed ≡ self.now.found.listed) }
    {
        Mappings {
            records: self.records,
            index: self.index,
            listed: self.found.listed,
        }
    }

    // The alignment of a space, and 0 of an id that is none: the check has looked it up.
    pub fn page_of(&self, space: u32) -> u64
        ensures { result ≡ page_at (objects_in self.now.head.now) space }
    {
        check_mappings::page_of(self.pages, space)
    }
}

// The rest of the verdict, by what the pass over the mapping records tells: how many numbers the index lists, None where the table is not good or the index not its own.
fn judge<'a>(h: &'a [u64; 865], ws: &'a [[u64; 5]], ix: &'a [u64], p: Pass) -> Option<usize>
    requires { (length ws.now ≡ 128) × Passes (objects_in h.now) (records_of ws.now) p }
    ensures { Judged (head_in h.now).limit (objects_in h.now) (records_of ws.now) ix.now result }
{
    let limit = layout_objects::limit_of(h);
    if limit < p.charge || 0x10_0000_0000 < limit {
        return None;
    }
    let listed = check_index::listing_of(ws, ix, p.used)?;
    let m = Mappings {
        records: ws,
        index: ix,
        listed,
    };
    if !check_reserved::is_clear(h, &m) {
        return None;
    }
    Some(listed)
}

// None of a table that is not good, and of an index that is not that of its mappings.
// Slot s of `pages` becomes the alignment of space s, 0 where s is no space; slot b of `marks` one more than the slot of the first record of backing b.
pub fn check<'a>(
    h: &'a [u64; 865],
    ws: &'a [[u64; 5]],
    ix: &'a [u64],
    pages: &'a mut [u64],
    marks: &'a mut [u8],
) -> Option<Findings>
    requires { (length ws.now ≡ 128) × (pages.old ≡ replicate 33 0) × (marks.old ≡ replicate 129 0) }
    ensures { Checked (head_in h.now).limit (objects_in h.now) (records_of ws.now) ix.now pages.new marks.new result }
{
    let objects = check_objects::pass_over(h, pages)?;
    let mappings = check_mappings::pass_over(ws, pages, marks)?;
    let listed = judge(h, ws, ix, mappings)?;
    Some(Findings {
        object: objects.free,
        mappings,
        listed,
    })
}
