// The lines put into a buffer, each with its LF; each function answers the place behind what it put.
ghost use Rattle.std.specs.Prelude.{◌≡◌, [], ◌∷◌, ◌++◌, ◌+◌, ◌*◌, ◌≤◌, length};
ghost use Rattle.metafile.specs.Answers.{placed};
ghost use Rattle.metafile.specs.Relations.{heading};
ghost use Rattle.relation_line.specs.Form.{line_for};

use crate::parts;
use table::places;
use text::put_word;

// The heading line, at the start.
pub fn put_heading(buffer: &mut [u8]) -> usize
    requires { 131 ≤ length buffer.old }
    ensures { (result ≡ 131) × (buffer.new ≡ placed 0 (heading ++ 10 ∷ []) buffer.old) }
{
    let heading = parts::HEADING;
    put_word(buffer, 0, &heading, b'\n')
}

// The line of dependency j of the chunk s, which has this serial number.
pub fn put_line(buffer: &mut [u8], at: usize, serial: &[u8], s: &[u8], j: usize) -> usize
    requires serial_len { length serial.now ≡ 38 }
    requires j_in_bounds { 568 + 344 * j + 344 ≤ length s.now }
    requires at_in_bounds { at + 605 ≤ length buffer.old }
    ensures { (result ≡ at + 605) × (buffer.new ≡ placed at (line_for serial.now s.now j ++ 10 ∷ []) buffer.old) }
{
    let dependency = places::DEPENDENCIES + places::DEPENDENCY_BYTES * j;
    let from = dependency + places::DEPENDENCY_SERIAL;
    let named = dependency + places::DEPENDENCY_SUB_FORMAT;
    let child = &s[places::SUB_FORMAT..places::SUB_FORMAT_END];
    let parent = &s[named..named + places::NAME];
    let a = put_word(buffer, at, b"ADS relation", parts::TAB);
    let b = put_word(buffer, a, serial, parts::TAB);
    let c = put_word(buffer, b, child, parts::TAB);
    let d = put_word(buffer, c, &s[from..from + places::SERIAL], parts::TAB);
    put_word(buffer, d, parent, b'\n')
}
