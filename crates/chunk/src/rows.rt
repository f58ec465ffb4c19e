// The row of a whole chunk. Serial number, offset, ending and sum are read here and nowhere else: whoever needs only the
// places of a chunk calls layout alone, and no byte is summed. l is the layout of the chunk at the start of s.
ghost use Rattle.std.specs.Prelude.{◌≡◌, ◌+◌, ◌<◌, ◌^◌, length};
ghost use Rattle.metafile.specs.Lines.{run};
ghost use Rattle.metafile.specs.Chunk.{head, synch_type, standard, offset_bytes, serial_of, chunk_ending, offset_under, row_at};
ghost use Rattle.chunk.specs.Layout.{WholeLayout};

use crate::Layout;
use crate::closing::sum_good;
use lines::words;
use metafile::{Row, endings};
use table::places;

// The serial number in the closing.
pub fn chunk_serial(s: &[u8], mark: &[u8], l: Layout) -> [u8; 38]
    requires { WholeLayout l mark.now s.now }
    ensures { result ≡ serial_of mark.now s.now }
{
    let at = l.contents + l.bytes + mark.len() + places::CHUNK_SERIAL;
    fields::serial_from(&s[at..])
}

// The time offset; 0 under SPE or NUL standard.
fn offset(s: &[u8]) -> i64
    requires { run head s.now ≡ 0 }
    ensures { result ≡ offset_under (synch_type s.now) (standard s.now) (offset_bytes s.now) }
{
    if lines::is_word(s, places::SYNCH_TYPE, words::SPE) {
        return 0;
    }
    if lines::is_word(s, places::TIME_STANDARD, words::NUL) {
        return 0;
    }
    fields::offset_value(&s[places::TIME_OFFSET..places::TIME_OFFSET_END])
}

// How the end was found; where the content length is 0, by the mark.
// number: an ending is the number that Row, which C reads, has for it
fn ending(s: &[u8], mark: &[u8], l: Layout) -> u8
    requires { WholeLayout l mark.now s.now }
    ensures { result ≡ chunk_ending s.now }
{
    if l.multichunk {
        return endings::BY_MINI_CHUNKS;
    }
    let at = l.header + places::CONTENT_LENGTH;
    if fields::counts_nothing(&s[at..at + places::LENGTH]) {
        return endings::FOUND;
    }
    endings::COUNTED
}

// The row of a whole chunk that stands at the place p of the file.
pub fn row(s: &[u8], p: usize, mark: &[u8], l: Layout) -> Row
    requires chunk { WholeLayout l mark.now s.now }
    requires place { p + length s.now < 2 ^ 64 }
    ensures { result ≡ row_at mark.now p s.now }
{
    let contents = p + l.contents;
    let end = p + l.end;
    let closing = l.contents + l.bytes;
    Row {
        serial: chunk_serial(s, mark, l),
        place: p,
        header: l.header,
        contents,
        bytes: l.bytes,
        end,
        dependencies: l.dependencies,
        offset: offset(s),
        multichunk: l.multichunk,
        good: sum_good(s, closing, mark),
        ending: ending(s, mark, l),
    }
}
