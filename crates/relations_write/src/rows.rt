// The lines of a row, and of all rows: counted, and put into a buffer.
ghost use Rattle.std.specs.Prelude.{◌≡◌, ◌+◌, ◌*◌, ◌≤◌, length, drop};
ghost use Rattle.metafile.specs.Answers.{placed};
ghost use Rattle.metafile.specs.Relations.{lined, relation_lines};
ghost use Rattle.relations_write.specs.Found.{listed_in};
ghost use Rattle.relations_write.specs.Counted.{count_below, line_count, ListedPut, RowPut};

use crate::found::{Listed, is_relations};
use table::places;

// A line with its LF.
pub const LINE: usize = relation_line::parts::LINE + 1;

impl<'a> Listed<'a> {
    // The listed ones of n dependencies of the chunk at a place of the file.
    fn listed(self, at: usize, n: usize) -> usize
        requires { at + (568 + 344 * n) ≤ length self.file.now }
        ensures { result ≡ count_below n (listed_in self.entry.file.now (drop at self.entry.file.now)) }
    {
        (0..n).filter(|j| self.is_listed(at, *j)).count()
    }

    // The lines of the row whose chunk, of n dependencies, stands at a place of the file.
    fn row_count(self, at: usize, n: usize) -> usize
        requires { at + (568 + 344 * n) ≤ length self.file.now }
        ensures { result ≡ line_count self.entry.file.now (drop at self.entry.file.now) n }
    {
        if is_relations(self.file, at) {
            return 0;
        }
        self.listed(at, n)
    }

    // The lines of all rows.
    pub fn count(self) -> usize
        ensures { (result ≡ length (relation_lines self.entry.file.now)) × (344 * result ≤ length self.entry.file.now) }
    {
        let h = self.found.header;
        let mut lines: usize = 0;
        let mut at = h.end;
        for k in 0..self.found.rows {
            let row = walk::row_at(self.file, h, k, at);
            lines += self.row_count(at, row.dependencies);
            at = row.end;
        }
        lines
    }

    // The lines of the listed ones of n dependencies, of the chunk at a place of the file whose serial number stands at another.
    fn put_listed(self, buffer: &mut [u8], p: usize, at: usize, serial: usize, n: usize) -> usize
        requires n_in_bounds { at + (568 + 344 * n) ≤ length self.file.now }
        requires serial_in_bounds { serial + 38 ≤ length self.file.now }
        requires file_in_bounds { p + 605 * count_below n (listed_in self.file.now (drop at self.file.now)) ≤ length buffer.old }
        ensures { ListedPut self.entry.file.now serial at n p result buffer.old buffer.new }
    {
        let own = &self.file[serial..serial + places::SERIAL];
        let mut q = p;
        for j in 0..n {
            if self.is_listed(at, j) {
                q = relation_line::put_line(buffer, q, own, &self.file[at..], j);
            }
        }
        q
    }

    // The lines of a row.
    fn put_row(self, buffer: &mut [u8], p: usize, at: usize, serial: usize, n: usize) -> usize
        requires n_in_bounds { at + (568 + 344 * n) ≤ length self.file.now }
        requires serial_in_bounds { serial + 38 ≤ length self.file.now }
        requires n_in_bounds_2 { p + 605 * line_count self.file.now (drop at self.file.now) n ≤ length buffer.old }
        ensures { RowPut self.entry.file.now serial at n p result buffer.old buffer.new }
    {
        if is_relations(self.file, at) {
            return p;
        }
        self.put_listed(buffer, p, at, serial, n)
    }

    // The lines of all rows, behind the heading line.
    pub fn put_rows(self, buffer: &mut [u8], from: usize)
        requires { from + 605 * length (relation_lines self.file.now) ≤ length buffer.old }
        ensures { buffer.new ≡ placed from (lined (relation_lines self.entry.file.now)) buffer.old }
    {
        let h = self.found.header;
        let mut p = from;
        let mut at = h.end;
        for k in 0..self.found.rows {
            let row = walk::row_at(self.file, h, k, at);
            p = self.put_row(buffer, p, at, row.serial, row.dependencies);
            at = row.end;
        }
    }
}
