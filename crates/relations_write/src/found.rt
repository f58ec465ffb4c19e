// Whether a serial number is that of a relations row: "none that names that sub-format or finds such a row". The relations rows
// stand in a directory. Where it has no room for one, the rows from there on are gone through.
ghost use Rattle.std.specs.Prelude.{◌≡◌, ◌+◌, ◌*◌, ◌≤◌, ◌<◌, length, drop};
ghost use Rattle.metafile.specs.Reading.{rows_of};
ghost use Rattle.metafile.specs.Relations.{is_relations};
ghost use Rattle.directory.specs.Directory.{Empty};
ghost use Rattle.walk.specs.Cursor.{Behind};
ghost use Rattle.relations_write.specs.Found.{finds_relations, listed_in, FoundIn, Scanned};

use relation_line::parts::COMPARED;
use table::places;
use walk::Header;

#[derive(Clone, Copy)]
pub struct Found {
    pub header: Header,
    // rows of the file
    pub rows: usize,
    // relations rows in the directory: all of those before row `upto`, which begins at `at`
    pub entries: usize,
    pub upto: usize,
    pub at: usize,
}

// A file whose relations rows are found, and what is listed of it.
#[derive(Clone, Copy)]
pub struct Listed<'a> {
    pub file: &'a [u8],
    pub found: Found,
    pub directory: &'a [u32],
    ghost found_in: { FoundIn file.now directory.now found },
}

// Whether the chunk at a place of the file is a relation chunk.
pub fn is_relations(file: &[u8], at: usize) -> bool
    requires { at + 568 ≤ length file.now }
    ensures { result ≡ is_relations (drop at file.now) }
{
    let name = at + places::SUB_FORMAT;
    relation_line::is_relations(&file[name..name + places::NAME])
}

// The relations rows into an empty directory, as far as it has room.
pub fn enter_rows(file: &[u8], header: Header, rows: usize, d: &mut [u32]) -> Found
    requires rows_value { rows ≡ length (rows_of file.now) }
    requires behind { 0 < rows → Behind file.now header 0 header.end }
    requires file_len_bound { length file.now ≤ 1073741824 }
    requires empty { Empty d.old }
    ensures { FoundIn file.now d.new result }
{
    let mut n: usize = 0;
    let mut at = header.end;
    let mut k: usize = 0;
    while k < rows {
        let row = walk::row_at(file, header, k, at);
        if is_relations(file, at) {
            let more = directory::add(file, d, n, row.serial, at);
            if more == n {
                return Found {
                    header,
                    rows,
                    entries: n,
                    upto: k,
                    at,
                };
            }
            n = more;
        }
        at = row.end;
        k += 1;
    }
    Found {
        header,
        rows,
        entries: n,
        upto: k,
        at,
    }
}

// Whether a relations row from row `from` on, which begins at a place of the file, has a serial number.
fn scan(file: &[u8], h: Header, from: usize, place: usize, rows: usize, serial: &[u8]) -> bool
    requires rows_value { rows ≡ length (rows_of file.now) }
    requires behind { Behind file.now h from place }
    requires serial_len { length serial.now ≡ 38 }
    ensures { Scanned file.now from serial.now result }
{
    let mut at = place;
    for k in from..rows {
        let row = walk::row_at(file, h, k, at);
        let own = row.serial;
        if search::same_bytes(&file[own..own + COMPARED], &serial[0..COMPARED]) {
            return is_relations(file, at);
        }
        at = row.end;
    }
    false
}

impl<'a> Listed<'a> {
    // Whether a serial number is that of a relations row.
    fn finds(self, serial: &[u8]) -> bool
        requires { length serial.now ≡ 38 }
        ensures { result ≡ finds_relations self.entry.file.now serial.now }
    {
        let t = self.found;
        directory::look_up(self.file, self.directory, t.entries, serial).is_some()
            || (t.upto < t.rows && scan(self.file, t.header, t.upto, t.at, t.rows, serial))
    }

    // Whether dependency j of the chunk at a place of the file is listed.
    pub fn is_listed(self, at: usize, j: usize) -> bool
        requires { at + (568 + 344 * j + 344) ≤ length self.file.now }
        ensures { result ≡ listed_in self.entry.file.now (drop at self.entry.file.now) j }
    {
        let dependency = at + places::DEPENDENCIES + places::DEPENDENCY_BYTES * j;
        let name = dependency + places::DEPENDENCY_SUB_FORMAT;
        if relation_line::is_relations(&self.file[name..name + places::NAME]) {
            return false;
        }
        let serial = dependency + places::DEPENDENCY_SERIAL;
        !self.finds(&self.file[serial..serial + places::SERIAL])
    }
}
