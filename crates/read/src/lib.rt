// The call read ("Reading" and "What a refused call gives" of the scope paper): the rows of a metafile, into a table that
// the caller lends as a slice of row structs. A row past the table's room is looked at once, for the number alone, and no sum
// is taken for it. The index of the serial numbers met so far is a local array, lent to the cursor of the crate walk.
// It rests on walk for the header, the cursor and the index, and on chunk for the row of a chunk.
//     rows     the rows one by one, without a table
//     local    a reading into a table of 76 rows, by value
// The contract cites read of the crate metafile (specs/Calls); the laws are in proofs/Laws and Turns.
#![tactic(auto)]

pub mod local;
mod rows;

ghost use Rattle.std.specs.Prelude.{◌≡◌};
ghost use Rattle.metafile.specs.Calls.{read};
ghost use Rattle.read.specs.State.{read_outcome, answer_of};

use metafile::{LIMIT, ReadAnswer, Refusal, Row};
pub use rows::{Next, known_row, next_row};
use walk::Cursor;

// The reading ends at a cursor, with this number.
fn ended(c: Cursor, number: u8) -> ReadAnswer
    ensures { result ≡ answer_of c number }
{
    ReadAnswer {
        count: c.row,
        stop: c.at,
        good: c.header.good,
        number,
    }
}

// Stores the rows of the file from the table's first on, as many as it has room for; the others stay as they are.
pub fn read(file: &[u8], rows: &mut [Row]) -> ReadAnswer
    ensures { read_outcome result rows.new ≡ read file.now rows.old }
{
    if LIMIT < file.len() {
        return ReadAnswer {
            count: 0,
            stop: 0,
            good: false,
            number: Refusal::OverLimit as u8,
        };
    }
    let room = rows.len();
    let mut index = walk::empty_index();
    let mut c = walk::first(file, room, &mut index);
    while c.go {
        if room <= c.row {
            return ended(c, Refusal::RowsFull as u8);
        }
        rows[c.row] = rows::row(file, c);
        c = walk::next(file, c, room, &mut index);
    }
    ended(c, c.number)
}
