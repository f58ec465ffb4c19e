// What the functions of this crate answer.
// The file header; where the number is not 0, all else is 0 and false.
#[derive(Clone, Copy)]
pub struct Header {
    pub number: u8,
    pub end: usize,
    // the mark's length
    pub mark: usize,
    pub llc: bool,
    // header sum good
    pub good: bool,
}

// Rows that are known to be there.
#[derive(Clone, Copy)]
pub struct Ahead {
    pub rows: usize,
    // where the last of them begins; 0 where there is none
    pub last: usize,
}

// A row, and where its chunk begins.
#[derive(Clone, Copy)]
pub struct Placed {
    pub row: usize,
    pub place: usize,
}

#[derive(Clone, Copy)]
pub struct Survey {
    pub count: usize,
    pub stop: usize,
    pub number: u8,
    // header sum good
    pub good: bool,
    // a serial number is in a row
    pub known: bool,
    // where the rows named begin and end; 0 where a row is not in the reading
    pub places: [usize; 16],
    pub ends: [usize; 16],
}
