// The parts of a line that only the calls have: bytes in brackets, and what is said of the table at its end.
use crate::sums;
use program_lines::{hex, hexadecimal, text, truth};
use rules_table::Table;

// Bytes in brackets, so that none is seen too.
pub fn bytes(s: &[u8]) {
    text(b" [");
    hex(s);
    text(b"]");
}

// Whether the table is good, and the sums over all its numbers.
pub fn ending(t: &Table) {
    truth(iommufd::is_good(*t));
    let s = sums::of_table(t);
    text(b" ");
    hexadecimal(s.plain, 8);
    hexadecimal(s.ordered, 8);
    text(b"\n");
}
