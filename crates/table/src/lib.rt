// The table of lines: label, field kind and width of each. The reader's run and the writer's run both follow it, by the
// numbers of its lines. specs/Codes.antt ties it to the table of the definitions.
//     rows     the table
//     numbers  the numbers of its lines, by name
//     places   the distances of values, summed from it
//     names    names in a field, padded with spaces
#![tactic(auto)]

pub mod names;
pub mod numbers;
pub mod places;
mod rows;

ghost use Rattle.std.specs.Prelude.{◌≡◌, ◌+◌, ◌<◌, ◌≤◌, length, drop};
ghost use Rattle.metafile.specs.Refusals.{fault_in};
ghost use Rattle.metafile.specs.Lines.{fixed, fault};
ghost use Rattle.metafile.specs.Answers.{placed};
ghost use Rattle.table.specs.Codes.{code_no, line_no};

use metafile::Refusal;

#[derive(Clone, Copy)]
pub enum Kind {
    Number,
    Checksum,
    Text,
    Date,
    Offset,
    Serial,
    Generic,
    Synch,
    Standard,
    Event,
    Strategy,
}

#[derive(Clone, Copy)]
pub struct Line {
    // the label, with spaces behind it up to the longest one's length
    pub label: [u8; 38],
    // the label's own length
    pub long: u8,
    // the value's width and kind
    pub width: u16,
    pub kind: Kind,
}

// Line i of the table. A row by its own name is folded into the code of a caller that names a line; an array of rows would be
// copied for each.
pub fn line_at(i: usize) -> Line
    requires { i < 24 }
    ensures { result ≡ code_no i }
{
    match i {
        0 => rows::CHUNK_HEADER_LENGTH,
        1 => rows::SUB_FORMAT_ID,
        2 => rows::GENERIC_TYPE,
        3 => rows::TIME_SYNCH_TYPE,
        4 => rows::TIME_STANDARD,
        5 => rows::TIME_OFFSET,
        6 => rows::EVENT_SYNCH,
        7 => rows::DEPENDENCY_LENGTH,
        8 => rows::DEPENDENCY_COUNT,
        9 => rows::DEPENDENCY_SERIAL,
        10 => rows::DEPENDENCY_SUB_FORMAT,
        11 => rows::CONTENT_LENGTH,
        12 => rows::MULTI_HEADER_LENGTH,
        13 => rows::TYPE_COUNT,
        14 => rows::SUB_TYPE_LENGTH,
        15 => rows::SHORT_ID,
        16 => rows::CHUNK_SERIAL,
        17 => rows::RECORDING_DATE,
        18 => rows::RECORDING_AGENT,
        19 => rows::WRITING_DATE,
        20 => rows::WRITING_AGENT,
        21 => rows::CHECKSUM,
        22 => rows::FORMAT_ID,
        _ => rows::SEPARATOR_STRATEGY,
    }
}

// Line i's label at a place: refused if the bytes end inside it, or if it differs.
pub fn label_fault(s: &[u8], at: usize, i: usize) -> Result<(), Refusal>
    requires { (at ≤ length s.now) × (i < 24) }
    ensures { fault_in result ≡ fault (fixed (line_no i).label) (drop at s.now) }
{
    let line = line_at(i);
    let long = line.long as usize;
    if s.len() - at < long {
        return Err(Refusal::Short);
    }
    let label = line.label;
    if search::same_bytes(&s[at..at + long], &label[..long]) {
        return Ok(());
    }
    Err(Refusal::Differs)
}

// Puts line i's label at a place of the buffer, and answers the place behind it.
pub fn put_label(buffer: &mut [u8], at: usize, i: usize) -> usize
    requires { (i < 24) × (at + length (line_no i).label ≤ length buffer.old) }
    ensures { (result ≡ at + length (line_no i).label) × (buffer.new ≡ placed at (line_no i).label buffer.old) }
{
    let line = line_at(i);
    let long = line.long as usize;
    let label = line.label;
    let end = at + long;
    buffer[at..end].copy_from_slice(&label[..long]);
    end
}
