// Where the parts of a row stand: of the row at which a cursor stands, and of the rows once more, where a reading has gone
// through all of them and how many there are is known. No index is needed then, and no chunk is judged again.
ghost use Rattle.std.specs.Prelude.{true, ◌≡◌, ◌<◌, length};
ghost use Rattle.metafile.specs.Reading.{rows_of};
ghost use Rattle.index.specs.Index.{size};
ghost use Rattle.walk.specs.Walk.{chunk_at};
ghost use Rattle.walk.specs.Cursor.{Behind, cursor_at, At};
ghost use Rattle.walk.specs.Known.{Ended, RowPlaces};

use crate::answers::Header;
use crate::cursor::{ALL, Cursor, next};
use crate::source::{Position, Source};
use chunk::Layout;

// Where the parts of a row's chunk stand in the file.
#[derive(Clone, Copy)]
pub struct Places {
    pub serial: usize,
    // dependency count
    pub dependencies: usize,
    pub end: usize,
}

// The cursor behind the last row, from a cursor on.
pub fn last(file: &[u8], from: Cursor, index: &mut [u32]) -> Cursor
    requires { At file.now from index.old }
    ensures { Ended file.now result × (length index.new ≡ size) }
{
    let mut c = from;
    while c.go {
        c = next(file, c, ALL, index);
    }
    c
}

// The parts of the row at a position, whose chunk has this layout.
fn parts_of(here: Position, l: Layout) -> Places
    requires row_in_bounds { here.row < length (rows_of here.source.file.now) }
    requires l_value { l ≡ chunk_at here.source.file.now here.at }
    ensures { RowPlaces here.entry.source.file.now here.entry.source.header here.entry.row here.entry.at result }
{
    Places {
        serial: here.source.serial_place(here.at, l),
        dependencies: l.dependencies,
        end: here.at + l.end,
    }
}

// The parts of row n, whose chunk begins at a place of the file.
pub fn row_at(file: &[u8], h: Header, n: usize, at: usize) -> Places
    requires behind { Behind file.now h n at }
    requires n_in_bounds { n < length (rows_of file.now) }
    ensures { RowPlaces file.now h n at result }
{
    let source = Source { file, header: h };
    let here = Position { source, row: n, at };
    parts_of(here, source.known_chunk(at))
}

// The parts of the row at which a cursor stands.
pub fn row_here(file: &[u8], c: Cursor) -> Places
    requires c_value { c ≡ cursor_at file.now c.row }
    requires go_value { c.go ≡ true }
    ensures { RowPlaces file.now c.header c.row c.at result }
{
    let source = Source {
        file,
        header: c.header,
    };
    let here = Position {
        source,
        row: c.row,
        at: c.at,
    };
    parts_of(here, c.layout)
}

// The cursor at row n, whose chunk begins at a place of the file.
pub fn cursor_at(file: &[u8], h: Header, n: usize, at: usize) -> Cursor
    requires behind { Behind file.now h n at }
    requires n_in_bounds { n < length (rows_of file.now) }
    ensures { result ≡ cursor_at file.now n }
{
    let source = Source { file, header: h };
    Cursor {
        go: true,
        number: 0,
        row: n,
        at,
        layout: source.known_chunk(at),
        header: h,
    }
}
