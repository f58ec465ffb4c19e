// Serial numbers of the rows behind which a reading stands: new by the index or by a look ahead, or looked up in the rows' own
// chunks.
ghost use Rattle.std.specs.Prelude.{◌≡◌, ◌+◌, ◌≤◌, length, take, replicate};
ghost use Rattle.metafile.specs.Bytes.{part};
ghost use Rattle.metafile.specs.Fields.{known};
ghost use Rattle.metafile.specs.Reading.{rows_of, serials_of};
ghost use Rattle.index.specs.Index.{size};
ghost use Rattle.walk.specs.Walk.{place_after, serial_at, between_of};
ghost use Rattle.walk.specs.Index.{Indexed, Entered};

use crate::answers::Placed;
use crate::lookahead::rows_ahead;
use crate::source::{Position, Source};
use table::places::SERIAL;

// The largest count that an entry holds.
const LAST: usize = 4294967295;

// Entries of an index.
pub const INDEX: usize = 197126;

// The entry that isn't 0 where the index is left.
const LEFT: usize = 197125;

// The entry that says then where the last row counted begins.
pub const LAST_AT: usize = 1;

// An index in which nothing is entered.
pub fn empty_index() -> [u32; INDEX]
    ensures { result ≡ replicate 197126 0 }
{
    [0; INDEX]
}

// The row with a serial number among those from row i, which begins at `place`, up to row k; else where the last of them ends.
pub fn row_between(
    source: Source,
    i: usize,
    place: usize,
    k: usize,
    serial: [u8; 38],
) -> Result<Placed, usize>
    requires i_le_k { i ≤ k }
    requires k_in_bounds { k ≤ length (rows_of source.file.now) }
    requires place_value { place ≡ place_after source.file.now i }
    ensures { result ≡ between_of source.entry.file.now i k serial }
{
    let mut at = place;
    for row in i..k {
        let l = source.known_chunk(at);
        if fields::same_serial(serial, source.serial_at(at, l)) {
            return Ok(Placed { row, place: at });
        }
        at += l.end;
    }
    Err(at)
}

// Whether a serial number is in one of the first i rows: their chunks are read again, from the header on.
fn rescanned(source: Source, i: usize, serial: [u8; 38]) -> bool
    requires i_in_bounds { i ≤ length (rows_of source.file.now) }
    ensures { result ≡ known serial (serials_of (take i (rows_of source.entry.file.now))) }
{
    row_between(source, 0, source.header.end, i, serial).is_ok()
}

// The same without the index, which is left for a look at the chunks ahead, up to row `until`.
fn leave(here: Position, until: usize, index: &mut [u32], place: usize) -> bool
    requires place_value { place ≡ serial_at here.source.file.now here.at }
    requires place_in_bounds { place + 38 ≤ length here.source.file.now }
    requires index_len { length index.old ≡ size }
    ensures known { result ≡ known (part place 38 here.entry.source.file.now) (serials_of (take here.entry.row (rows_of here.entry.source.file.now))) }
    ensures indexed { Indexed here.entry.source.file.now (here.entry.row + 1) index.new }
{
    let source = here.source;
    let ahead = rows_ahead(here, until, index);
    index[0] = ahead.rows as u32;
    index[LAST_AT] = ahead.last as u32;
    index[LEFT] = 1;
    if here.row < ahead.rows {
        return false;
    }
    rescanned(source, here.row, fields::serial_from(&source.file[place..]))
}

// Whether the serial number at `place`, that of the whole chunk at a position, is in one of the rows before it. By the index it is new
// where they are all entered in it and the place of its hash is empty, and then it is entered as that of row i. Where its tag
// stands, their chunks are read again; where that is another's, or there is no room, the index is left. From then on the chunks
// ahead are looked at wherever no more rows are known to be there.
pub fn met(here: Position, until: usize, index: &mut [u32], place: usize) -> bool
    requires place_value { place ≡ serial_at here.source.file.now here.at }
    requires place_in_bounds { place + 38 ≤ length here.source.file.now }
    requires indexed { Indexed here.source.file.now here.row index.old }
    ensures known { result ≡ known (part place 38 here.entry.source.file.now) (serials_of (take here.entry.row (rows_of here.entry.source.file.now))) }
    ensures entered { Entered here.entry.source.file.now here.entry.row (part place 38 here.entry.source.file.now) index.new }
{
    if index[LEFT] != 0 {
        return leave(here, until, index, place);
    }
    let source = here.source;
    let i = here.row;
    if index[0] as usize == i && i < LAST {
        let end = place + SERIAL;
        let hash = index::hash(&source.file[place..end]);
        let slot = index::place(index, hash);
        if slot < index.len() {
            if index[slot] == 0 {
                index[slot] = index::tag(hash);
                index[0] = (i + 1) as u32;
                return false;
            }
            if rescanned(source, i, fields::serial_from(&source.file[place..])) {
                return true;
            }
        }
    }
    leave(here, until, index, place)
}
