// A file whose file header is whole, and where a reading of it stands. The chunk at a place, and its serial number.
ghost use Rattle.std.specs.Prelude.{◌≡◌, ◌+◌, ◌≤◌, ◌<◌, length, drop};
ghost use Rattle.metafile.specs.Header.{is_llc, mark_of};
ghost use Rattle.metafile.specs.Chunk.{chunk_fault, serial_of};
ghost use Rattle.metafile.specs.Reading.{rows_of};
ghost use Rattle.walk.specs.Walk.{header_of, place_after, chunk_at, serial_at};

use crate::answers::Header;
use chunk::Layout;
use table::places::{CHUNK_SERIAL, MARK};

// A file and its file header.
#[derive(Clone, Copy)]
pub struct Source<'a> {
    pub file: &'a [u8],
    pub header: Header,
    ghost header_is: { header ≡ header_of file.now },
    ghost whole: { header.number ≡ 0 },
}

impl<'a> Source<'a> {
    fn mark(self) -> &'a [u8]
        ensures { result.now ≡ mark_of self.entry.file.now }
    {
        &self.file[MARK..MARK + self.header.mark]
    }

    // The chunk at a place.
    pub fn chunk_at(self, at: usize) -> Layout
        requires { at ≤ length self.file.now }
        ensures { result ≡ chunk_at self.entry.file.now at }
    {
        chunk::layout(&self.file[at..], self.header.llc, self.mark())
    }

    // The chunk at a place where a whole one is known to stand.
    pub fn known_chunk(self, at: usize) -> Layout
        requires at_in_bounds { at ≤ length self.file.now }
        requires file_value { chunk_fault (is_llc self.file.now) (mark_of self.file.now) (drop at self.file.now) ≡ 0 }
        ensures { result ≡ chunk_at self.entry.file.now at }
    {
        chunk::parts_of(&self.file[at..], self.header.llc, self.mark())
    }

    // The serial number of the whole chunk at a place.
    pub fn serial_at(self, at: usize, l: Layout) -> [u8; 38]
        requires at_in_bounds { at ≤ length self.file.now }
        requires l_value { l ≡ chunk_at self.file.now at }
        requires number_value { l.number ≡ 0 }
        ensures { result ≡ serial_of (mark_of self.entry.file.now) (drop at self.entry.file.now) }
    {
        chunk::chunk_serial(&self.file[at..], self.mark(), l)
    }

    // Where the serial number of the whole chunk at a place stands.
    pub fn serial_place(self, at: usize, l: Layout) -> usize
        requires at_in_bounds { at ≤ length self.file.now }
        requires l_value { l ≡ chunk_at self.file.now at }
        requires number_value { l.number ≡ 0 }
        ensures place { result ≡ serial_at self.entry.file.now at }
        ensures inside { result + 38 ≤ length self.entry.file.now }
    {
        at + l.contents + l.bytes + self.header.mark + CHUNK_SERIAL
    }
}

// Behind so many rows of a file, the last of which ends at the place `at`.
#[derive(Clone, Copy)]
pub struct Position<'a> {
    pub source: Source<'a>,
    pub row: usize,
    pub at: usize,
    ghost few: { row ≤ length (rows_of source.file.now) },
    ghost at_is: { at ≡ place_after source.file.now row },
}

// The chunk at a place of the file.
pub fn chunk_at(file: &[u8], h: Header, at: usize) -> Layout
    requires h_value { h ≡ header_of file.now }
    requires number_value { h.number ≡ 0 }
    requires at_in_bounds { at ≤ length file.now }
    ensures { result ≡ chunk_at file.now at }
{
    let source = Source { file, header: h };
    source.chunk_at(at)
}

// The serial number of the whole chunk at a place of the file.
pub fn serial_at(file: &[u8], h: Header, at: usize, l: Layout) -> [u8; 38]
    requires h_value { h ≡ header_of file.now }
    requires number_value { h.number ≡ 0 }
    requires at_in_bounds { at ≤ length file.now }
    requires l_value { l ≡ chunk_at file.now at }
    requires number_value_2 { l.number ≡ 0 }
    ensures { result ≡ serial_of (mark_of file.now) (drop at file.now) }
{
    let source = Source { file, header: h };
    source.serial_at(at, l)
}
