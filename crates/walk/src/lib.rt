// The reading without a table, as the scope paper has it under "File header" and "Reading": the file header, a cursor over
// the rows, the row of a number, and whether a serial number is already in a row. Nothing is kept between the rows
// but an index of their serial numbers, which the caller lends: how many rows are entered, and a tag of each. Where
// the index says that a serial number is new, it is; where it does not, the file's own chunks are gone through; where a row
// finds no room in it, the index is left, and a look at the chunks ahead says how many rows are there. Contracts cite Header,
// Reading, Append.row_no and Calls.row_with of the crate metafile, and specs/Walk, Index, Ahead, Cursor and Survey of this one;
// the laws are in proofs/Steps, Index, Ahead, Cursors and Named.
// Rests on chunk for one chunk and for the test of a sum, on index for the tags, on filter and order for the look ahead, on
// table, lines and fields for the header's lines and values.
//     answers  what the functions answer
//     headers  the file header: strategy, mark, end, sum; the reading's number where it isn't whole
//     earlier  serial numbers of earlier rows: looked up, and entered into the index
//     lookahead  how many rows are there, by a look at the chunks ahead
//     source   a file with its whole header, and a position in it: the chunk there, its serial number
//     rows     what stands at a position: the step
//     cursor   the cursor over the rows: at the first, at the next
//     known    where the parts of a row stand; the rows once more, behind a reading
//     walks    the row of a number, the row of a serial number
//     surveys  one reading for all that append asks of the file
#![tactic(auto)]

mod answers;
mod cursor;
mod earlier;
mod headers;
mod known;
mod lookahead;
mod rows;
mod source;
mod surveys;
mod walks;

pub use answers::{Header, Placed, Survey};
pub use cursor::{ALL, Cursor, behind, first, next, none};
pub use earlier::{INDEX, empty_index};
pub use headers::header;
pub use known::{Places, cursor_at, last, row_at, row_here};
pub use source::{chunk_at, serial_at};
pub use surveys::survey;
pub use walks::{row_behind, row_of, row_with};
