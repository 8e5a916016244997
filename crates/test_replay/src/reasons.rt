// Why a command is refused: the code of the reason, its errno, the object or the record that it names, and its run as start and one less than its length.
use crate::calls::unknown;
use program_lines::{number, signed, text};
use rules_reasons::Reason;
use rules_table::Table;

// The body is the request number and the command.
pub fn why(t: Table, body: &[u8]) -> Table {
    let Some((request, cmd)) = body.split_first_chunk() else {
        return unknown(t);
    };
    let explained = explain::explain(t, u32::from_le_bytes(*request), cmd);
    text(b"why");
    match explained {
        Ok(reason) => told(reason),
        Err(errno) => signed(opening::signed_result(errno)),
    }
    t
}

fn told(reason: Reason) {
    text(b" 0");
    let p = reason_words::parts_in(reason);
    number(u64::from(p.code));
    number(u64::from(p.errno));
    number(u64::from(p.number));
    match p.run {
        None => text(b" none"),
        Some(run) => {
            number(run.start);
            number(run.more);
        }
    }
}
