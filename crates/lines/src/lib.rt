// Lines over the one table of lines: the reader's run over bytes and the writer's run over values ("Integrity data",
// "Chunk", "Closing", "Fields are read in file order: 4 if the bytes end inside a field, else its own fault"). Labels and
// widths are those of the crate table, the forms of values those of the crate fields; each contract cites the run, the
// test or the bytes that the crate metafile defines.
//     words    the listed words, and the label of a mini-chunk
//     judge    the fault of a line's value, by its kind
//     reader   the field reader: a file and a position in it
//     run      the reader's runs: a line up to its LF, a line, lines
//     stretches  the runs over a chunk's head and its integrity data
//     write    the writer's runs: values judged, lines, bytes, numbers and the closing put into a buffer
#![tactic(auto)]

mod judge;
pub mod reader;
mod run;
mod stretches;
pub mod words;
mod write;

pub use reader::{Reader, Refused, read_field, read_fixed};
pub use run::{lines_fault, read_line, read_opened};
pub use stretches::{dependency_count_fault, head_lines_fault, integrity_fault};
pub use words::{begins_mini, is_word};
pub use write::{put_bytes, put_closing, put_lines, put_number, values_formed};
