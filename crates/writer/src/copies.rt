// "Each parent's serial and sub-format are copied from its chunk": the lines of parents, put behind the file, which is
// the first `length` bytes of the buffer.
ghost use Rattle.std.specs.Prelude.{[], ◌∷◌, ◌≡◌, ◌+◌, ◌*◌, ◌≤◌, length as size, take};
ghost use Rattle.metafile.specs.Bytes.{part};
ghost use Rattle.metafile.specs.Lines.{write};
ghost use Rattle.metafile.specs.Chunk.{dependency_fields};
ghost use Rattle.metafile.specs.Reading.{rows_of};
ghost use Rattle.metafile.specs.Answers.{placed};
ghost use Rattle.metafile.specs.Append.{parent_values};
ghost use Rattle.writer.specs.Parents.{Located};

use crate::values::parent_values;
use table::numbers;
use table::places::{CHUNK_SERIAL, INTEGRITY_BYTES, NAME, SUB_FORMAT};

// A serial number stands so many bytes and the mark before the chunk's end.
const SERIAL_BACK: usize = INTEGRITY_BYTES - CHUNK_SERIAL;

// The two lines of a parent, whose sub-format stands at this place of the buffer.
fn put_parent(buffer: &mut [u8], at: usize, serial: [u8; 38], name: usize) -> usize
    requires { (at + 344 ≤ size buffer.old) × (name + 256 ≤ size buffer.old) }
    ensures { (result ≡ at + 344) × (buffer.new ≡ placed at (write (dependency_fields 1) (serial ∷ part name 256 buffer.old ∷ [])) buffer.old) }
{
    let values = parent_values(serial, &buffer[name..name + NAME]);
    lines::put_lines(buffer, at, numbers::DEPENDENCY_SERIAL, 2, &values)
}

// The lines of the rows named, by where their chunks begin and end.
// arrays: places and ends are those of walk::Survey, as the definition survey_of has them
pub fn put_parents(
    buffer: &mut [u8],
    length: usize,
    at: usize,
    mark: usize,
    parents: &[usize],
    places: [usize; 16],
    ends: [usize; 16],
) -> usize
    requires length_le_at { (length ≤ at) × (at + 344 * size parents.now ≤ size buffer.old) }
    requires located { Located (take length buffer.old) mark parents.now places ends }
    ensures { (result ≡ at + 344 * size parents.now) × (buffer.new ≡ placed at (write (dependency_fields (size parents.now)) (parent_values (take length buffer.old) (rows_of (take length buffer.old)) parents.now)) buffer.old) }
{
    let mut p = at;
    for i in 0..parents.len() {
        let from = ends[i] - (mark + SERIAL_BACK);
        let serial = fields::serial_from(&buffer[from..]);
        let name = places[i] + SUB_FORMAT;
        p = put_parent(buffer, p, serial, name);
    }
    p
}
