// The declared types of these rules. What they mean stands in specs/.
#![tactic(auto)]

use runs::Run;

// What stood in the way of a MAP or a COPY: a case for each check.
#[derive(Clone, Copy)]
pub enum Reason {
    Accepted,
    NoSizeField,
    SizeTooSmall,
    SizePastBytes,
    TailNotZero,
    Flags,
    NoRight,
    WrongLength,
    MemoryPasses,
    SourcePasses,
    AddressPasses,
    NoSpace,
    NoSourceSpace,
    NoSource,
    NotWriteable,
    Misaligned,
    // The lowest id of an object that reserves an address of the range.
    TouchesReserved(u32),
    // The lowest number of a mapping record that has an address of the range.
    TouchesMapping(u32),
    LengthMisaligned,
    // The longest free run.
    NoPlace(Option<Run>),
    NoRecord,
    OverLimit,
}
