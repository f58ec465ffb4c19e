// How the end of a chunk was found: "counted, found, or by mini-chunks".
// number: a field of the rows that C lends.

// by the content length
pub const COUNTED: u8 = 0;

// by the mark
pub const FOUND: u8 = 1;

// by the mini-chunks of a MultiChunk
pub const BY_MINI_CHUNKS: u8 = 2;
