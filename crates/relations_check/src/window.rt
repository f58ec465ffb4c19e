// Rows that stand one behind the other, as many as a directory has room for, by their serial numbers.
ghost use Rattle.std.specs.Prelude.{◌≡◌, ◌||◌, ◌+◌, ◌≤◌, ◌<◌, length};
ghost use Rattle.metafile.specs.Reading.{rows_of};
ghost use Rattle.metafile.specs.Relations.{split_on};
ghost use Rattle.directory.specs.Directory.{Empty};
ghost use Rattle.walk.specs.Cursor.{Behind};
ghost use Rattle.relation_line.specs.Form.{form_of};
ghost use Rattle.relations_check.specs.Judged.{declared_below};
ghost use Rattle.relations_check.specs.Window.{WindowOf, Filled};

use walk::Header;

#[derive(Clone, Copy)]
pub struct Window {
    // the first row, and how many
    pub from: usize,
    pub entries: usize,
    // where the last ends
    pub end: usize,
}

// The rows from row `from` on, which begins at a place of the file, into an empty directory, as far as it has room.
pub fn fill(file: &[u8], h: Header, from: usize, place: usize, rows: usize, d: &mut [u32]) -> Window
    requires rows_value { rows ≡ length (rows_of file.now) }
    requires behind { Behind file.now h from place }
    requires from_lt_rows { from < rows }
    requires file_len_bound { length file.now ≤ 1073741824 }
    requires empty { Empty d.old }
    ensures { Filled file.now h from d.new result }
{
    let mut n: usize = 0;
    let mut at = place;
    while n < rows - from {
        let row = walk::row_at(file, h, from + n, at);
        let more = directory::add(file, d, n, row.serial, at);
        if more == n {
            return Window {
                from,
                entries: n,
                end: at,
            };
        }
        n = more;
        at = row.end;
    }
    Window {
        from,
        entries: n,
        end: at,
    }
}

// The rows of a window: the file, and the directory of their serial numbers.
#[derive(Clone, Copy)]
pub struct Rows<'a> {
    pub file: &'a [u8],
    pub directory: &'a [u32],
    pub window: Window,
    ghost window_of: { WindowOf file.now directory.now window.from window.entries },
}

impl<'a> Rows<'a> {
    // Whether one of them declares the dependency of a line.
    pub fn declares(self, line: &[u8]) -> bool
        requires { form_of line.now ≡ 2 }
        ensures { (declared_below self.entry.file.now self.entry.window.from (split_on 9 line.now) || result) ≡ declared_below self.entry.file.now (self.entry.window.from + self.entry.window.entries) (split_on 9 line.now) }
    {
        let child =
            &line[relation_line::parts::CHILD_SERIAL..relation_line::parts::CHILD_SERIAL_END];
        let entries = self.window.entries;
        let Some(j) = directory::look_up(self.file, self.directory, entries, child) else {
            return false;
        };
        let at = directory::start(self.directory, j);
        let s = &self.file[at..];
        relation_line::declares(s, chunk::dependencies(s), line)
    }
}
