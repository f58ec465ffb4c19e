// Which of several relation chunks holds: "the latest Chunk_Writing_Date, and of equal dates the later row". Nothing else of a
// chunk is asked: neither its sum nor its contents.
ghost use Rattle.std.specs.Prelude.{◌≡◌, ◌+◌, ◌≤◌, length};
ghost use Rattle.metafile.specs.Relations.{writing_day};
ghost use Rattle.index.specs.Index.{size};
ghost use Rattle.walk.specs.Cursor.{At};
ghost use Rattle.relations_check.specs.Latest.{AtRow, Holding, Chosen};

use crate::row::is_relations;
use table::places;
use walk::Cursor;

// A relations row that holds among some rows.
#[derive(Clone, Copy)]
pub struct Latest {
    // at that row
    pub own: Cursor,
    pub day: u32,
}

// The number of the day on which the chunk at a cursor was written.
fn writing_day(file: &[u8], c: Cursor) -> u32
    requires { AtRow file.now c }
    ensures { result ≡ writing_day file.now c.row }
{
    let closing = c.at + c.layout.contents + c.layout.bytes;
    let at = closing + c.header.mark + places::WRITING_DATE;
    let day = fields::read_date(&file[at..at + places::DATE]);
    fields::day_number(day)
}

// The one that holds once the row of a cursor is passed; `best` holds before it, if one does.
fn later(file: &[u8], c: Cursor, best: Option<Latest>) -> Option<Latest>
    requires at_row { AtRow file.now c }
    requires holding { Holding file.now c.row best }
    ensures { Holding file.now (c.row + 1) result }
{
    if !is_relations(file, c) {
        return best;
    }
    let day = writing_day(file, c);
    match best {
        Some(other) if day < other.day => best,
        _ => Some(Latest { own: c, day }),
    }
}

// The cursor behind the last row, and the relations row that holds: all rows are gone through once.
pub fn choose(file: &[u8], first: Cursor, index: &mut [u32]) -> (Cursor, Option<Latest>)
    requires at { At file.now first index.old }
    requires row_value { first.row ≡ 0 }
    requires file_len_bound { length file.now ≤ 1073741824 }
    ensures { Chosen file.now result.0 result.1 × (length index.new ≡ size) }
{
    let mut best = None;
    let mut c = first;
    while c.go {
        best = later(file, c, best);
        c = walk::next(file, c, walk::ALL, index);
    }
    (c, best)
}
