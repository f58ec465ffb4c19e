// The lines by their numbers in the table.
// clause: `i < 24` stays a number's bound, since the runs cut the table by numbers (lines_from in specs/Codes)

// ---- a chunk's header
pub const CHUNK_HEADER_LENGTH: usize = 0;

pub const SUB_FORMAT_ID: usize = 1;

pub const GENERIC_TYPE: usize = 2;

pub const TIME_SYNCH_TYPE: usize = 3;

pub const TIME_STANDARD: usize = 4;

pub const TIME_OFFSET: usize = 5;

pub const EVENT_SYNCH: usize = 6;

pub const DEPENDENCY_LENGTH: usize = 7;

pub const DEPENDENCY_COUNT: usize = 8;

// ---- a dependency
pub const DEPENDENCY_SERIAL: usize = 9;

pub const DEPENDENCY_SUB_FORMAT: usize = 10;

// ---- contents
pub const CONTENT_LENGTH: usize = 11;

// ---- a MultiChunk and its types
pub const MULTI_HEADER_LENGTH: usize = 12;

pub const TYPE_COUNT: usize = 13;

pub const SUB_TYPE_LENGTH: usize = 14;

pub const SHORT_ID: usize = 15;

// ---- integrity data
pub const CHUNK_SERIAL: usize = 16;

pub const RECORDING_DATE: usize = 17;

pub const RECORDING_AGENT: usize = 18;

pub const WRITING_DATE: usize = 19;

pub const WRITING_AGENT: usize = 20;

pub const CHECKSUM: usize = 21;

// ---- the file header's first 65 bytes
pub const FORMAT_ID: usize = 22;

pub const SEPARATOR_STRATEGY: usize = 23;
