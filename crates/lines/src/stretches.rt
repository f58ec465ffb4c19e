// The lines that a file has most of: those of a chunk's head and its integrity data. The numbers of the lines stand
// here, so that the compiler knows each line's label, kind, width and place; all of them come from the
// table. Where no line has a fault there is none; else the lines are gone through one by one for the first.
ghost use Rattle.std.specs.Prelude.{◌≡◌, ◌≤◌, length, drop};
ghost use Rattle.metafile.specs.Refusals.{fault_in};
ghost use Rattle.metafile.specs.Lines.{opened, lines_of, run};
ghost use Rattle.table.specs.Codes.{line_no, lines_from};
ghost use Rattle.lines.specs.Parts.{behind_taken};

use crate::reader::Refused;
use crate::run::{lines_fault, read_line, read_opened};
use metafile::Refusal;
use table::{numbers, places};

// How many lines stand before the dependency count, and in the integrity data.
const HEAD_LINES: usize = numbers::DEPENDENCY_COUNT - numbers::CHUNK_HEADER_LENGTH;

const INTEGRITY_LINES: usize = numbers::CHECKSUM - numbers::CHUNK_SERIAL + 1;

// The position behind a line, refused or not.
fn behind(line: Result<usize, Refused>) -> usize
    ensures { result ≡ behind_taken line }
{
    match line {
        Ok(at) => at,
        Err(refused) => refused.behind,
    }
}

// The lines from Chunk_Header_Length to Chunk_Dependency_Length.
pub fn head_lines_fault(s: &[u8]) -> Result<(), Refusal>
    ensures { fault_in result ≡ run (lines_of (lines_from 0 8)) s.now }
{
    if places::DEPENDENCY_COUNT_LINE <= s.len() {
        let a = read_line(s, 0, numbers::CHUNK_HEADER_LENGTH);
        let b = read_line(s, behind(a), numbers::SUB_FORMAT_ID);
        let c = read_line(s, behind(b), numbers::GENERIC_TYPE);
        let d = read_line(s, behind(c), numbers::TIME_SYNCH_TYPE);
        let e = read_line(s, behind(d), numbers::TIME_STANDARD);
        let f = read_line(s, behind(e), numbers::TIME_OFFSET);
        let g = read_line(s, behind(f), numbers::EVENT_SYNCH);
        let h = read_line(s, behind(g), numbers::DEPENDENCY_LENGTH);
        let clean = a.is_ok()
            & b.is_ok()
            & c.is_ok()
            & d.is_ok()
            & e.is_ok()
            & f.is_ok()
            & g.is_ok()
            & h.is_ok();
        if clean {
            return Ok(());
        }
    }
    lines_fault(s, 0, numbers::CHUNK_HEADER_LENGTH, HEAD_LINES)
}

// Chunk_Dependency_Count behind the head's lines, up to its digits.
pub fn dependency_count_fault(s: &[u8]) -> Result<(), Refusal>
    requires { 540 ≤ length s.now }
    ensures { fault_in result ≡ run (opened (line_no 8)) (drop 540 s.now) }
{
    read_opened(s, places::DEPENDENCY_COUNT_LINE, numbers::DEPENDENCY_COUNT)?;
    Ok(())
}

// The integrity data at a place.
pub fn integrity_fault(s: &[u8], at: usize) -> Result<(), Refusal>
    requires { at ≤ length s.now }
    ensures { fault_in result ≡ run (lines_of (lines_from 16 6)) (drop at s.now) }
{
    let v = &s[at..];
    if places::INTEGRITY_BYTES <= v.len() {
        let a = read_line(v, 0, numbers::CHUNK_SERIAL);
        let b = read_line(v, behind(a), numbers::RECORDING_DATE);
        let c = read_line(v, behind(b), numbers::RECORDING_AGENT);
        let d = read_line(v, behind(c), numbers::WRITING_DATE);
        let e = read_line(v, behind(d), numbers::WRITING_AGENT);
        let f = read_line(v, behind(e), numbers::CHECKSUM);
        let clean = a.is_ok() & b.is_ok() & c.is_ok() & d.is_ok() & e.is_ok() & f.is_ok();
        if clean {
            return Ok(());
        }
    }
    lines_fault(s, at, numbers::CHUNK_SERIAL, INTEGRITY_LINES)
}
