// What stands behind i rows: the file's end, a fault, a chunk whose serial number is in a row, or the next row.
ghost use Rattle.std.specs.Prelude.{◌≡◌, ◌+◌};
ghost use Rattle.walk.specs.Walk.{no_layout, step_of};
ghost use Rattle.walk.specs.Index.{Indexed};

use crate::earlier::met;
use crate::source::Position;
use chunk::Layout;
use metafile::Refusal;

// The parts of no chunk.
pub fn no_layout() -> Layout
    ensures { result ≡ no_layout }
{
    Layout {
        number: 0,
        header: 0,
        contents: 0,
        bytes: 0,
        end: 0,
        dependencies: 0,
        multichunk: false,
    }
}

// The next row's chunk, at a position, or the number with which the reading stops there, 0 at the file's end. Where the index
// knows that the row is there, its chunk isn't judged; else it is, and its serial number is looked up and entered. No row behind
// row `until` will be asked for: that spares time alone.
pub fn step(here: Position, until: usize, index: &mut [u32]) -> Result<Layout, u8>
    requires indexed { Indexed here.source.file.now here.row index.old }
    ensures step { result ≡ step_of here.entry.source.file.now here.entry.row }
    ensures indexed { Indexed here.entry.source.file.now (here.entry.row + 1) index.new }
{
    let source = here.source;
    let at = here.at;
    if at == source.file.len() {
        return Err(0);
    }
    if here.row < index[0] as usize {
        return Ok(source.known_chunk(at));
    }
    let l = source.chunk_at(at);
    if l.number != 0 {
        return Err(l.number);
    }
    if met(here, until, index, source.serial_place(at, l)) {
        return Err(Refusal::KnownSerial as u8);
    }
    Ok(l)
}
