// The row at which a cursor stands.
ghost use Rattle.std.specs.Prelude.{◌≡◌};
ghost use Rattle.metafile.specs.Reading.{rows_of};
ghost use Rattle.metafile.specs.Append.{row_no};
ghost use Rattle.metafile.specs.Calls.{chunk_of, row_contents};
ghost use Rattle.metafile.specs.Relations.{is_relations};
ghost use Rattle.relations_check.specs.Latest.{AtRow};

use table::places;
use walk::Cursor;

// Its chunk is a relation chunk.
pub fn is_relations(file: &[u8], c: Cursor) -> bool
    requires { AtRow file.now c }
    ensures { result ≡ is_relations (chunk_of file.now c.row) }
{
    let name = c.at + places::SUB_FORMAT;
    relation_line::is_relations(&file[name..name + places::NAME])
}

pub fn contents(file: &[u8], c: Cursor) -> &[u8]
    requires { AtRow file.now c }
    ensures { result.now ≡ row_contents file.now (row_no (rows_of file.now) c.row) }
{
    let from = c.at + c.layout.contents;
    &file[from..from + c.layout.bytes]
}
