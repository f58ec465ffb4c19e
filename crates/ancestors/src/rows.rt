// The rows of a file, noted in one reading, as far as 64.
ghost use Rattle.std.specs.Prelude.{true, ◌≡◌, ◌+◌, length};
ghost use Rattle.metafile.specs.Reading.{rows_of};
ghost use Rattle.walk.specs.Cursor.{cursor_at};
ghost use Rattle.ancestors.specs.Noted.{Noted};

use graph::ROWS;
use walk::Cursor;

// A row, noted.
#[derive(Clone, Copy)]
pub struct NotedRow {
    // where its chunk begins
    pub place: usize,
    // where its serial number stands
    pub serial: usize,
    // how many dependencies it has, and how many of them name no row
    pub dependencies: usize,
    pub missing: usize,
}

// Where no row is noted.
pub const UNNOTED: NotedRow = NotedRow {
    place: 0,
    serial: 0,
    dependencies: 0,
    missing: 0,
};

// Notes the row at which a cursor stands, where it is one of the first 64.
fn note(file: &[u8], c: Cursor, rows: &mut [NotedRow; ROWS])
    requires c_value { c ≡ cursor_at file.now c.row }
    requires go_value { c.go ≡ true }
    requires noted { Noted file.now c.row rows.old }
    ensures { Noted file.now (c.row + 1) rows.new }
{
    let i = c.row;
    if i < ROWS {
        let parts = walk::row_here(file, c);
        rows[i] = NotedRow {
            place: c.at,
            serial: parts.serial,
            dependencies: parts.dependencies,
            missing: 0,
        };
    }
}

// How many rows the file has. The first 64 of them are noted.
pub fn note_rows(file: &[u8], rows: &mut [NotedRow; ROWS]) -> usize
    ensures { (result ≡ length (rows_of file.now)) × Noted file.now result rows.new }
{
    let mut index = [0u32; walk::INDEX];
    let mut c = walk::first(file, walk::ALL, &mut index);
    while c.go {
        note(file, c, rows);
        c = walk::next(file, c, walk::ALL, &mut index);
    }
    c.row
}
