// Distances of the values that later code takes, each the sum of the table's own bytes before it: a line is its label, its
// value and LF. Only the ten bytes of a mini-chunk's label, which is no line of the table, are a number of their own.
use crate::rows;

// ---- the file header, from its first byte

pub const STRATEGY: usize = rows::FORMAT_ID.long as usize
    + rows::FORMAT_ID.width as usize
    + 1
    + rows::SEPARATOR_STRATEGY.long as usize;

// behind the strategy's word
pub const MARK_LENGTH: usize = STRATEGY + WORD;

pub const MARK_LENGTH_END: usize = MARK_LENGTH + MARK_DIGITS;

// where the mark stands: "65 bytes"
pub const MARK: usize = MARK_LENGTH_END + 1;

// ---- a chunk's header, from its first byte

pub const HEADER_LENGTH: usize = rows::CHUNK_HEADER_LENGTH.long as usize;

// "counts from just after its last digit"
pub const HEADER_LENGTH_END: usize = HEADER_LENGTH + LENGTH;

pub const SUB_FORMAT: usize = HEADER_LENGTH_END + 1 + rows::SUB_FORMAT_ID.long as usize;

pub const SUB_FORMAT_END: usize = SUB_FORMAT + rows::SUB_FORMAT_ID.width as usize;

pub const GENERIC_TYPE: usize = SUB_FORMAT_END + 1 + rows::GENERIC_TYPE.long as usize;

pub const SYNCH_TYPE: usize = GENERIC_TYPE + WORD + 1 + rows::TIME_SYNCH_TYPE.long as usize;

pub const TIME_STANDARD: usize = SYNCH_TYPE + WORD + 1 + rows::TIME_STANDARD.long as usize;

pub const TIME_OFFSET: usize = TIME_STANDARD
    + rows::TIME_STANDARD.width as usize
    + 1
    + rows::TIME_OFFSET.long as usize;

pub const TIME_OFFSET_END: usize = TIME_OFFSET + OFFSET;

const EVENT_SYNCH: usize = TIME_OFFSET_END + 1 + rows::EVENT_SYNCH.long as usize;

pub const DEPENDENCY_LENGTH: usize = EVENT_SYNCH
    + rows::EVENT_SYNCH.width as usize
    + 1
    + rows::DEPENDENCY_LENGTH.long as usize;

pub const DEPENDENCY_LENGTH_END: usize = DEPENDENCY_LENGTH + LENGTH;

// where the line of the dependency count stands
pub const DEPENDENCY_COUNT_LINE: usize = DEPENDENCY_LENGTH_END + 1;

pub const DEPENDENCY_COUNT: usize = DEPENDENCY_COUNT_LINE + rows::DEPENDENCY_COUNT.long as usize;

pub const DEPENDENCY_COUNT_END: usize = DEPENDENCY_COUNT + COUNT;

// where the first dependency stands; the bytes of a header without dependencies and specific data
pub const DEPENDENCIES: usize = DEPENDENCY_COUNT_END + 1;

// the two lengths where there is neither: from just after their last digit
pub const LEAST_HEADER_LENGTH: usize = DEPENDENCIES - HEADER_LENGTH_END;

pub const LEAST_DEPENDENCY_LENGTH: usize = DEPENDENCIES - DEPENDENCY_LENGTH_END;

// ---- a dependency, from its first byte

pub const DEPENDENCY_SERIAL: usize = rows::DEPENDENCY_SERIAL.long as usize;

pub const DEPENDENCY_SUB_FORMAT: usize = DEPENDENCY_SERIAL
    + SERIAL
    + 1
    + rows::DEPENDENCY_SUB_FORMAT.long as usize;

pub const DEPENDENCY_BYTES: usize = DEPENDENCY_SUB_FORMAT
    + rows::DEPENDENCY_SUB_FORMAT.width as usize
    + 1;

// ---- the content length line, from its first byte

pub const CONTENT_LENGTH: usize = rows::CONTENT_LENGTH.long as usize;

pub const CONTENT_LENGTH_END: usize = CONTENT_LENGTH + LENGTH;

pub const CONTENT_LENGTH_BYTES: usize = CONTENT_LENGTH_END + 1;

// ---- the contents of a MultiChunk, from their first byte

pub const MULTI_HEADER_LENGTH: usize = rows::MULTI_HEADER_LENGTH.long as usize;

pub const MULTI_HEADER_LENGTH_END: usize = MULTI_HEADER_LENGTH + LENGTH;

// where the line of the type count stands
pub const TYPE_COUNT_LINE: usize = MULTI_HEADER_LENGTH_END + 1;

pub const TYPE_COUNT: usize = TYPE_COUNT_LINE + rows::TYPE_COUNT.long as usize;

pub const TYPE_COUNT_END: usize = TYPE_COUNT + COUNT;

// where the first type stands
pub const TYPES: usize = TYPE_COUNT_END + 1;

// the header length of no types
pub const LEAST_MULTI_LENGTH: usize = TYPES - MULTI_HEADER_LENGTH_END;

// ---- a type, from its first byte

pub const TYPE_LENGTH: usize = rows::SUB_TYPE_LENGTH.long as usize;

pub const TYPE_LENGTH_END: usize = TYPE_LENGTH + LENGTH;

// where the line of the short ID stands
pub const SHORT_ID_LINE: usize = TYPE_LENGTH_END
    + 1
    + rows::SUB_FORMAT_ID.long as usize
    + rows::SUB_FORMAT_ID.width as usize
    + 1;

pub const SHORT_ID: usize = SHORT_ID_LINE + rows::SHORT_ID.long as usize;

pub const SHORT_ID_END: usize = SHORT_ID + ID;

// where the specific data stand: behind the four time and event lines
pub const TYPE_SPECIFIC: usize = SHORT_ID_END + 1 + TIME_AND_EVENT_BYTES;

// the four time and event lines
pub const TIME_AND_EVENT_BYTES: usize = rows::TIME_SYNCH_TYPE.long as usize
    + rows::TIME_SYNCH_TYPE.width as usize
    + 1
    + rows::TIME_STANDARD.long as usize
    + rows::TIME_STANDARD.width as usize
    + 1
    + rows::TIME_OFFSET.long as usize
    + rows::TIME_OFFSET.width as usize
    + 1
    + rows::EVENT_SYNCH.long as usize
    + rows::EVENT_SYNCH.width as usize
    + 1;

// the header length of a type without them
pub const LEAST_TYPE_LENGTH: usize = TYPE_SPECIFIC - TYPE_LENGTH_END;

// ---- a mini-chunk, from its first byte: "MiniChunk=", A10, I12, data

pub const MINI_ID: usize = 10;

pub const MINI_LENGTH: usize = MINI_ID + ID;

pub const MINI_DATA: usize = MINI_LENGTH + LENGTH;

// ---- the integrity data, from their first byte

pub const CHUNK_SERIAL: usize = rows::CHUNK_SERIAL.long as usize;

pub const RECORDING_DATE: usize = CHUNK_SERIAL + SERIAL + 1 + rows::RECORDING_DATE.long as usize;

pub const WRITING_DATE: usize = RECORDING_DATE
    + DATE
    + 1
    + rows::RECORDING_AGENT.long as usize
    + AGENT
    + 1
    + rows::WRITING_DATE.long as usize;

pub const CHECKSUM: usize = WRITING_DATE
    + DATE
    + 1
    + rows::WRITING_AGENT.long as usize
    + AGENT
    + 1
    + rows::CHECKSUM.long as usize;

pub const INTEGRITY_BYTES: usize = CHECKSUM + SUM + 1;

// ---- widths

// I12, a length; I4, a count
pub const LENGTH: usize = rows::CHUNK_HEADER_LENGTH.width as usize;

pub const COUNT: usize = rows::DEPENDENCY_COUNT.width as usize;

// I3, a sum; I3, a mark length, behind the strategy's word
pub const SUM: usize = rows::CHECKSUM.width as usize;

pub const MARK_DIGITS: usize = rows::SEPARATOR_STRATEGY.width as usize - WORD;

// a listed word
pub const WORD: usize = rows::GENERIC_TYPE.width as usize;

pub const SERIAL: usize = rows::CHUNK_SERIAL.width as usize;

// A256, a sub-format; A32, an agent; A10, a short ID
pub const NAME: usize = rows::SUB_FORMAT_ID.width as usize;

pub const AGENT: usize = rows::RECORDING_AGENT.width as usize;

pub const ID: usize = rows::SHORT_ID.width as usize;

pub const DATE: usize = rows::RECORDING_DATE.width as usize;

pub const OFFSET: usize = rows::TIME_OFFSET.width as usize;
