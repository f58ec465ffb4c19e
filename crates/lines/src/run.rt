// The reader's runs: "Fields are read in file order", the first fault counts. Each field is read by `read_field`,
// at the position that the field before it gave. A line answers the position behind it, refused or not; several lines answer
// their first fault.
ghost use Rattle.std.specs.Prelude.{◌≡◌, [], ◌∷◌, ◌+◌, ◌≤◌, ◌<◌, length, drop};
ghost use Rattle.metafile.specs.Refusals.{fault_in};
ghost use Rattle.metafile.specs.Lines.{opened, lines_of, size, run};
ghost use Rattle.table.specs.Codes.{line_no, lines_from};
ghost use Rattle.lines.specs.Parts.{Takes};

use crate::reader::{END, LABEL, Refused, VALUE, read_field};
use metafile::Refusal;

// The bytes of line i up to its LF.
pub fn opened_bytes(i: usize) -> usize
    requires { i < 24 }
    ensures { result ≡ size (opened (line_no i)) }
{
    let line = table::line_at(i);
    line.long as usize + line.width as usize
}

// Line i up to its LF.
pub fn read_opened(s: &[u8], at: usize, i: usize) -> Result<usize, Refused>
    requires { (at ≤ length s.now) × (i < 24) }
    ensures { Takes (opened (line_no i)) at s.now result }
{
    match read_field(s, at, i, LABEL) {
        Ok(value) => read_field(s, value, i, VALUE),
        Err(label) => Err(Refused {
            behind: at + opened_bytes(i),
            ..label
        }),
    }
}

// Line i.
pub fn read_line(s: &[u8], at: usize, i: usize) -> Result<usize, Refused>
    requires { (at ≤ length s.now) × (i < 24) }
    ensures { Takes (lines_of (line_no i ∷ [])) at s.now result }
{
    match read_opened(s, at, i) {
        Ok(end) => read_field(s, end, i, END),
        Err(line) => Err(Refused {
            behind: line.behind + 1,
            ..line
        }),
    }
}

// n lines from the first on.
pub fn lines_fault(s: &[u8], at: usize, first: usize, n: usize) -> Result<(), Refusal>
    requires { (at ≤ length s.now) × (first + n ≤ 24) }
    ensures { fault_in result ≡ run (lines_of (lines_from first n)) (drop at s.now) }
{
    let mut p = at;
    for i in first..first + n {
        p = read_line(s, p, i)?;
    }
    Ok(())
}
