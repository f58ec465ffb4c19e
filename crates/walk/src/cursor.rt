// A cursor over the rows of a file: it stands at a row, or where the reading stops, and is handed on by value. A loop over
// the rows is `let mut c = first(file, k, index); while c.go { .. c = next(file, c, k, index); }`, where row k is the last that
// is asked for, and its invariant is one record, At of specs/Cursor; what a cursor says of the reading is in proofs/Cursors.
ghost use Rattle.std.specs.Prelude.{true, ◌≡◌, ◌+◌, ◌≤◌, ◌<◌};
ghost use Rattle.walk.specs.Index.{Indexed};
ghost use Rattle.walk.specs.Cursor.{cursor_none, Behind, At};

use crate::answers::Header;
use crate::earlier::LAST_AT;
use crate::headers::{header, unbegun};
use crate::rows::{no_layout, step};
use crate::source::{Position, Source};
use chunk::Layout;

// Where all rows may be asked for: behind every row.
pub const ALL: usize = 18446744073709551615;

#[derive(Clone, Copy)]
pub struct Cursor {
    // the cursor stands at a row; else the reading stops with the number
    pub go: bool,
    pub number: u8,
    // rows passed
    pub row: usize,
    // where the last of them ends, else the header
    pub at: usize,
    // the row's chunk
    pub layout: Layout,
    pub header: Header,
}

// No row at all: this number.
pub fn none(number: u8) -> Cursor
    ensures { result ≡ cursor_none number }
{
    let header = Header {
        number,
        end: 0,
        mark: 0,
        llc: false,
        good: false,
    };
    Cursor {
        go: false,
        number,
        row: 0,
        at: 0,
        layout: no_layout(),
        header,
    }
}

// Behind n rows, the last of which ends at the place `at`.
pub fn behind(
    file: &[u8],
    header: Header,
    n: usize,
    at: usize,
    until: usize,
    index: &mut [u32],
) -> Cursor
    requires behind { Behind file.now header n at }
    requires indexed { Indexed file.now n index.old }
    ensures { At file.now result index.new × (result.row ≡ n) }
{
    let source = Source { file, header };
    let here = Position { source, row: n, at };
    match step(here, until, index) {
        Ok(layout) => Cursor {
            go: true,
            number: 0,
            row: n,
            at,
            layout,
            header,
        },
        Err(number) => Cursor {
            go: false,
            number,
            row: n,
            at,
            layout: no_layout(),
            header,
        },
    }
}

// At the first row. The index is empty; the serial number of the row at which a cursor stands is entered.
pub fn first(file: &[u8], until: usize, index: &mut [u32]) -> Cursor
    requires { Indexed file.now 0 index.old }
    ensures { At file.now result index.new × (result.row ≡ 0) }
{
    let h = header(file);
    if h.number != 0 {
        let mut c = none(h.number);
        c.number = unbegun(file.len(), h.number);
        return c;
    }
    behind(file, h, 0, h.end, until, index)
}

// At the next row.
pub fn next(file: &[u8], c: Cursor, until: usize, index: &mut [u32]) -> Cursor
    requires at { At file.now c index.old }
    requires go_value { c.go ≡ true }
    ensures { At file.now result index.new × (result.row ≡ c.row + 1) }
{
    behind(file, c.header, c.row + 1, c.at + c.layout.end, until, index)
}

// At row k, which is behind that of the cursor, where a look ahead ended with it; else at the next row.
pub fn toward(file: &[u8], c: Cursor, k: usize, until: usize, index: &mut [u32]) -> Cursor
    requires at { At file.now c index.old }
    requires go_value { c.go ≡ true }
    requires row_lt_k { c.row < k }
    ensures { At file.now result index.new × (c.row < result.row) × (result.row ≤ k) }
{
    let n = index[0] as usize;
    if k < n && n - k == 1 {
        let at = index[LAST_AT] as usize;
        return behind(file, c.header, k, at, until, index);
    }
    next(file, c, until, index)
}
