// The types of a SEG-UKOOA ADS metafile 1.00 that the definitions in specs/ name: the row, the answers of the
// calls, and the description of a chunk to append, with its methods. specs/ says what each call gives.
//     clean         whether a file is clean
//     days          the fault of what reading a date gives
//     endings       how the end of a chunk was found
//     fields_given  the description's methods
//     limits        "a lent byte buffer over 2^30"
//     refusal       what a refused call answers
//     rows          the row of no chunk
#![tactic(auto)]

pub mod clean;
mod days;
pub mod endings;
mod fields_given;
mod limits;
mod refusal;
mod rows;

pub use limits::{LIMIT, over_limit};
pub use refusal::Refusal;

// A day by year, month and day, which reading a date gives, or a serial number by its date. Its number is fields::day_number.
#[derive(Clone, Copy, Debug, PartialEq, Eq)]
pub struct Day {
    pub year: u16,
    pub month: u8,
    pub day: u8,
}

// One chunk of the table. Places are counted from the file's first byte.
#[repr(C)]
#[derive(Clone, Copy)]
pub struct Row {
    pub serial: [u8; 38],
    pub place: usize,
    // header bytes
    pub header: usize,
    // contents place
    pub contents: usize,
    // contents bytes
    pub bytes: usize,
    pub end: usize,
    // dependency count
    pub dependencies: usize,
    // in units of 10^-10 second
    pub offset: i64,
    // MultiChunk or not
    pub multichunk: bool,
    // sum good or not
    pub good: bool,
    // how the end was found: one of endings
    // number: C lends the table of rows, which may hold any bytes before it is written.
    pub ending: u8,
}

// What read answers beside the rows. It has all four values for every number.
// number: C is given this struct.
#[repr(C)]
#[derive(Clone, Copy)]
pub struct ReadAnswer {
    pub count: usize,
    pub stop: usize,
    // header sum good
    pub good: bool,
    pub number: u8,
}

// What parent answers where the row is there: its number, and whether the sub-formats agree.
#[derive(Clone, Copy, Debug, PartialEq, Eq)]
pub struct ParentRow {
    pub row: usize,
    pub agree: bool,
}

// What append answers: the three ends.
#[derive(Clone, Copy, Debug, PartialEq, Eq)]
pub struct Ends {
    pub first: usize,
    pub second: usize,
    pub third: usize,
}

// What the check of relations answers where no row is named: the number of verdicts, and the row.
#[derive(Clone, Copy, Debug, PartialEq, Eq)]
pub struct CheckedRow {
    pub count: usize,
    pub row: usize,
}

// What ancestors answers: how many rows are listed, and how many dependencies name no row.
#[derive(Clone, Copy, Debug, PartialEq, Eq)]
pub struct Reached {
    pub count: usize,
    pub missing: usize,
}

// A text as it was given: its first bytes, and its whole length, which may be more than the field is wide.
#[repr(C)]
#[derive(Clone, Copy)]
pub struct Text256 {
    pub bytes: [u8; 256],
    pub given: usize,
}

#[repr(C)]
#[derive(Clone, Copy)]
pub struct Text32 {
    pub bytes: [u8; 32],
    pub given: usize,
}

// The fields of a chunk to append. A listed word comes as its three bytes; the serial number beside it is used only
// after ALT, SLV and MAS.
#[repr(C)]
#[derive(Clone, Copy)]
pub struct Description {
    pub subformat: Text256,
    pub generic: [u8; 3],
    pub synch: [u8; 3],
    pub standard: [u8; 3],
    pub alternate: [u8; 38],
    pub offset: [u8; 16],
    pub event: [u8; 3],
    pub linked: [u8; 38],
    pub serial: [u8; 38],
    pub recorded: [u8; 8],
    pub recorder: Text32,
    pub written: [u8; 8],
    pub writer: Text32,
}
