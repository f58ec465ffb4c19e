// The rows of a file one by one, without a table, for those who know no chunk: a loop over them carries the file header, how many
// rows are passed, and where the last of them ends. Here a chunk's sum is taken.
ghost use Rattle.std.specs.Prelude.{true, ◌≡◌, ◌+◌, ◌<◌, length};
ghost use Rattle.metafile.specs.Reading.{rows_of};
ghost use Rattle.metafile.specs.Append.{row_no};
ghost use Rattle.walk.specs.Index.{Indexed};
ghost use Rattle.walk.specs.Cursor.{Behind, cursor_at};
ghost use Rattle.read.specs.State.{next_of};

use metafile::Row;
use table::places::MARK;
use walk::{Cursor, Header};

#[derive(Clone, Copy)]
pub struct Next {
    // there is another row, and this is it; else the reading stops
    pub go: bool,
    pub row: Row,
}

// The row of a cursor.
pub fn row(file: &[u8], c: Cursor) -> Row
    requires c_value { c ≡ cursor_at file.now c.row }
    requires go_value { c.go ≡ true }
    ensures { result ≡ row_no (rows_of file.now) c.row }
{
    let end = MARK + c.header.mark;
    chunk::row(&file[c.at..], c.at, &file[MARK..end], c.layout)
}

// The row behind n rows, the last of which ends at the place `at`; its serial number is entered into the index.
pub fn next_row(file: &[u8], h: Header, n: usize, at: usize, index: &mut [u32]) -> Next
    requires behind { Behind file.now h n at }
    requires indexed { Indexed file.now n index.old }
    ensures { (result ≡ next_of file.now n) × Indexed file.now (n + 1) index.new }
{
    let c = walk::behind(file, h, n, at, walk::ALL, index);
    if !c.go {
        let none = Row::none();
        return Next {
            go: false,
            row: none,
        };
    }
    let row = row(file, c);
    Next { go: true, row }
}

// Row n, which is known to be there, and begins at the place `at`.
pub fn known_row(file: &[u8], h: Header, n: usize, at: usize) -> Row
    requires behind { Behind file.now h n at }
    requires n_in_bounds { n < length (rows_of file.now) }
    ensures { result ≡ row_no (rows_of file.now) n }
{
    let c = walk::cursor_at(file, h, n, at);
    row(file, c)
}
