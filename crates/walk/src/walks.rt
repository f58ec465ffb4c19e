// The row of a number, and the row of a serial number.
ghost use Rattle.std.specs.Prelude.{true, ◌≡◌, ◌+◌, ◌≤◌, length, IfOk};
ghost use Rattle.metafile.specs.Reading.{rows_of};
ghost use Rattle.walk.specs.Walk.{place_after, numbered_of, between_of};
ghost use Rattle.walk.specs.Index.{Indexed};
ghost use Rattle.walk.specs.Cursor.{At, named_of, named_in};

use crate::answers::Placed;
use crate::cursor::{ALL, Cursor, first, next, toward};
use crate::earlier::row_between;
use crate::source::Source;
use metafile::{LIMIT, Refusal};

// The cursor at row k, from a cursor on that stands at it or before it. "13 row not in the reading"
fn reached(
    file: &[u8],
    from: Cursor,
    k: usize,
    until: usize,
    index: &mut [u32],
) -> Result<Cursor, Refusal>
    requires at { At file.now from index.old }
    requires row_le_k { from.row ≤ k }
    requires file_len_bound { length file.now ≤ 1073741824 }
    ensures named { named_in result ≡ named_of file.now k }
    ensures goes { IfOk result (λ c. c.go ≡ true) }
    ensures indexed { Indexed file.now (k + 1) index.new }
{
    let mut c = from;
    while c.go {
        if c.row == k {
            return Ok(c);
        }
        c = toward(file, c, k, until, index);
    }
    Err(Refusal::NoRow)
}

// The cursor at the row of a number, from 0, for the calls that name a row. "11 a lent byte buffer over 2^30", "13 row not
// in the reading". The index is empty, and then has the rows up to that row. Row `until` is the last that is asked for.
pub fn row_of(file: &[u8], k: usize, until: usize, index: &mut [u32]) -> Result<Cursor, Refusal>
    requires { Indexed file.now 0 index.old }
    ensures named { named_in result ≡ named_of file.now k }
    ensures goes { IfOk result (λ c. c.go ≡ true) }
    ensures indexed { Indexed file.now (k + 1) index.new }
{
    if LIMIT < file.len() {
        return Err(Refusal::OverLimit);
    }
    let c = first(file, until, index);
    reached(file, c, k, until, index)
}

// The same for row k, from what row_of answered for row m, not behind it; a cursor at no row is refused too.
pub fn row_behind(
    file: &[u8],
    m: usize,
    named: Result<Cursor, Refusal>,
    k: usize,
    index: &mut [u32],
) -> Result<Cursor, Refusal>
    requires named_value { named_in named ≡ named_of file.now m }
    requires m_le_k { m ≤ k }
    requires indexed { Indexed file.now (m + 1) index.old }
    ensures named { named_in result ≡ named_of file.now k }
    ensures goes { IfOk result (λ c. c.go ≡ true) }
    ensures indexed { Indexed file.now (k + 1) index.new }
{
    match named {
        Ok(c) if c.go => reached(file, c, k, k, index),
        Ok(_) if LIMIT < file.len() => Err(Refusal::OverLimit),
        Ok(_) => Err(Refusal::NoRow),
        Err(refusal) => Err(refusal),
    }
}

// The row with a serial number among the rows before row i, else where the last of them ends: first from row m on, which begins
// at `place`, then before it. A chunk rests more often on a recent one.
fn row_before(
    source: Source,
    m: usize,
    place: usize,
    i: usize,
    serial: [u8; 38],
) -> Result<Placed, usize>
    requires m_le_i { m ≤ i }
    requires i_in_bounds { i ≤ length (rows_of source.file.now) }
    requires place_value { place ≡ place_after source.file.now m }
    ensures { result ≡ between_of source.entry.file.now 0 i serial }
{
    match row_between(source, m, place, i, serial) {
        Ok(late) => Ok(late),
        Err(end) => row_between(source, 0, source.header.end, m, serial).or(Err(end)),
    }
}

// The row with a serial number, asked at a row of the reading and at a row m before it, which begins at `place`: among the rows
// before it, then from it on.
pub fn row_with(
    file: &[u8],
    own: Cursor,
    m: usize,
    place: usize,
    serial: [u8; 38],
    index: &mut [u32],
) -> Option<Placed>
    requires at { At file.now own index.old }
    requires go_value { own.go ≡ true }
    requires m_le_row { m ≤ own.row }
    requires place_value { place ≡ place_after file.now m }
    ensures { result ≡ numbered_of file.now serial }
{
    let source = Source {
        file,
        header: own.header,
    };
    if let Ok(before) = row_before(source, m, place, own.row, serial) {
        return Some(before);
    }
    let mut c = own;
    while c.go {
        if fields::same_serial(serial, source.serial_at(c.at, c.layout)) {
            return Some(Placed {
                row: c.row,
                place: c.at,
            });
        }
        c = next(file, c, ALL, index);
    }
    None
}
