// Edits of the table past the calls: records stored as they are, for bad tables and for tables with mappings.
use crate::reading::list;
use program_lines::{half, text, word};
use rules_table::{Attachment, Kind, Mapping, Object, Table};

// The numbers of a mapping at a place: six u32, then three u64.
pub fn mapping(t: Table, body: &[u8]) -> Table {
    let mapping = Mapping {
        space: half(body, 1),
        rights: half(body, 2),
        founder: half(body, 3),
        backing: half(body, 4),
        address: word(body, 3),
        length: word(body, 4),
        memory: word(body, 5),
    };
    text(b"mapping");
    edits::put_mapping(t, half(body, 0) as usize, mapping)
}

// The fields of an object at a place: the kind and the space of an attached device, the counts of both lists, the bitmap, the ranges.
pub fn object(t: Table, body: &[u8]) -> Table {
    let object = Object {
        kind: kind_of(half(body, 1), half(body, 2)),
        bitmap: word(body, 3),
        reserved: list(body, half(body, 3), 4),
        allow: list(body, half(body, 4), 12),
    };
    text(b"object");
    edits::put_object(t, half(body, 0) as usize, object)
}

// The numbers that tests/model.py gives to kinds.
fn kind_of(n: u32, space: u32) -> Kind {
    match n {
        1 => Kind::Space,
        2 => Kind::Device(Attachment::Loose),
        3 => Kind::Device(Attachment::Attached(space)),
        _ => Kind::Free,
    }
}

pub fn limit(t: Table, body: &[u8]) -> Table {
    text(b"limit");
    Table {
        limit: word(body, 0),
        ..t
    }
}
