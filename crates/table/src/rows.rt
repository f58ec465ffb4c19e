// The table of lines, in a row: label, label's length, value's width and kind of each, as chapter 5 prints them. Nothing of
// them stands anywhere else.
use crate::{Kind, Line};

// ---- a chunk's header
pub const CHUNK_HEADER_LENGTH: Line = Line {
    label: *b"Chunk_Header_Length=                  ",
    long: 20,
    width: 12,
    kind: Kind::Number,
};

pub const SUB_FORMAT_ID: Line = Line {
    label: *b"SubFormat_ID=                         ",
    long: 13,
    width: 256,
    kind: Kind::Text,
};

pub const GENERIC_TYPE: Line = Line {
    label: *b"Generic_Type=                         ",
    long: 13,
    width: 3,
    kind: Kind::Generic,
};

pub const TIME_SYNCH_TYPE: Line = Line {
    label: *b"Chunk_Time_Synch_Type=                ",
    long: 22,
    width: 3,
    kind: Kind::Synch,
};

pub const TIME_STANDARD: Line = Line {
    label: *b"Chunk_Time_Standard=                  ",
    long: 20,
    width: 41,
    kind: Kind::Standard,
};

pub const TIME_OFFSET: Line = Line {
    label: *b"Chunk_Time_Offset=                    ",
    long: 18,
    width: 16,
    kind: Kind::Offset,
};

pub const EVENT_SYNCH: Line = Line {
    label: *b"Chunk_Event_Synch=                    ",
    long: 18,
    width: 41,
    kind: Kind::Event,
};

pub const DEPENDENCY_LENGTH: Line = Line {
    label: *b"Chunk_Dependency_Length=              ",
    long: 24,
    width: 12,
    kind: Kind::Number,
};

pub const DEPENDENCY_COUNT: Line = Line {
    label: *b"Chunk_Dependency_Count=               ",
    long: 23,
    width: 4,
    kind: Kind::Number,
};

// ---- a dependency
pub const DEPENDENCY_SERIAL: Line = Line {
    label: *b"Dependency_Serial_Number=             ",
    long: 25,
    width: 38,
    kind: Kind::Serial,
};

pub const DEPENDENCY_SUB_FORMAT: Line = Line {
    label: *b"Dependency_SubFormatID=               ",
    long: 23,
    width: 256,
    kind: Kind::Text,
};

// ---- contents
pub const CONTENT_LENGTH: Line = Line {
    label: *b"Chunk_Content_Length=                 ",
    long: 21,
    width: 12,
    kind: Kind::Number,
};

// ---- a MultiChunk and its types
pub const MULTI_HEADER_LENGTH: Line = Line {
    label: *b"Multi_Chunk_Header_Length=            ",
    long: 26,
    width: 12,
    kind: Kind::Number,
};

pub const TYPE_COUNT: Line = Line {
    label: *b"MiniChunk_Type_Count=                 ",
    long: 21,
    width: 4,
    kind: Kind::Number,
};

pub const SUB_TYPE_LENGTH: Line = Line {
    label: *b"SubType_Header_Length=                ",
    long: 22,
    width: 12,
    kind: Kind::Number,
};

pub const SHORT_ID: Line = Line {
    label: *b"SubFormat_Short_ID=                   ",
    long: 19,
    width: 10,
    kind: Kind::Text,
};

// ---- integrity data
pub const CHUNK_SERIAL: Line = Line {
    label: *b"Chunk_Serial_Number=                  ",
    long: 20,
    width: 38,
    kind: Kind::Serial,
};

pub const RECORDING_DATE: Line = Line {
    label: *b"Chunk_Recording_Date=                 ",
    long: 21,
    width: 8,
    kind: Kind::Date,
};

pub const RECORDING_AGENT: Line = Line {
    label: *b"Chunk_Recording_Agent=                ",
    long: 22,
    width: 32,
    kind: Kind::Text,
};

pub const WRITING_DATE: Line = Line {
    label: *b"Chunk_Writing_Date=                   ",
    long: 19,
    width: 8,
    kind: Kind::Date,
};

pub const WRITING_AGENT: Line = Line {
    label: *b"Chunk_Writing_Agent=                  ",
    long: 20,
    width: 32,
    kind: Kind::Text,
};

pub const CHECKSUM: Line = Line {
    label: *b"Chunk_Integrity_Checksum=             ",
    long: 25,
    width: 3,
    kind: Kind::Checksum,
};

// ---- the file header's first 65 bytes
pub const FORMAT_ID: Line = Line {
    label: *b"Format_ID=Ancillary Data Standard 1.00",
    long: 38,
    width: 0,
    kind: Kind::Text,
};

pub const SEPARATOR_STRATEGY: Line = Line {
    label: *b"Separator_Strategy=                   ",
    long: 19,
    width: 6,
    kind: Kind::Strategy,
};
