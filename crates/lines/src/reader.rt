// The field reader: a file and a position in it. Asked for a field, it answers the position behind it, or why the field is
// refused and the position all the same. `read_field` and `read_fixed` make one and ask it, and every run over a file goes
// through these two.
ghost use Rattle.std.specs.Prelude.{◌≡◌, [], ◌∷◌, ◌≤◌, ◌<◌, length, drop};
ghost use Rattle.metafile.specs.Refusals.{fault_in};
ghost use Rattle.metafile.specs.Lines.{fixed, fault, lf};
ghost use Rattle.lines.specs.Parts.{field_no, fault_taken, behind_taken, Takes};

use crate::judge::{value_fault, verdict};
use metafile::Refusal;

// The fields of a line.
pub const LABEL: u8 = 0;

pub const VALUE: u8 = 1;

pub const END: u8 = 2;

#[derive(Clone, Copy)]
pub struct Reader<'a> {
    pub file: &'a [u8],
    pub at: usize,
}

// Why a field is refused, and the position behind it all the same.
#[derive(Clone, Copy, Debug, PartialEq, Eq, Hash)]
pub struct Refused {
    pub refusal: Refusal,
    pub behind: usize,
}

impl From<Refused> for Refusal {
    ghost from_gives = { λ refused refusal. refusal ≡ refused.refusal };

    fn from(refused: Refused) -> Refusal {
        refused.refusal
    }
}

// What was read, by its fault and the position behind it.
fn taken(fault: Result<(), Refusal>, behind: usize) -> Result<usize, Refused>
    ensures { (fault_taken result ≡ fault_in fault) × (behind_taken result ≡ behind) }
{
    match fault {
        Ok(()) => Ok(behind),
        Err(refusal) => Err(Refused { refusal, behind }),
    }
}

// ---- over a slice and a position

// An LF at a place.
fn lf_fault(s: &[u8], at: usize) -> Result<(), Refusal>
    requires { at ≤ length s.now }
    ensures { fault_in result ≡ fault lf (drop at s.now) }
{
    if s.len() <= at {
        return Err(Refusal::Short);
    }
    if s[at] != 10 {
        return Err(Refusal::Differs);
    }
    Ok(())
}

// A field of line i at a place.
fn field_at(s: &[u8], at: usize, i: usize, part: u8) -> Result<usize, Refused>
    requires { (at ≤ length s.now) × (i < 24) × (part < 3) }
    ensures { Takes (field_no i part ∷ []) at s.now result }
{
    let line = table::line_at(i);
    if part == LABEL {
        let long = line.long as usize;
        return taken(table::label_fault(s, at, i), at + long);
    }
    if part == VALUE {
        let width = line.width as usize;
        return taken(value_fault(&s[at..], i), at + width);
    }
    taken(lf_fault(s, at), at + 1)
}

// A fixed text at a place: whether the bytes there begin with it.
fn fixed_fault(s: &[u8], at: usize, text: &[u8]) -> Result<(), Refusal>
    requires { at ≤ length s.now }
    ensures { fault_in result ≡ fault (fixed text.now) (drop at s.now) }
{
    if s.len() - at < text.len() {
        return Err(Refusal::Short);
    }
    verdict(search::begins(text, &s[at..]), Refusal::Differs)
}

// A fixed text at a place.
fn fixed_at(s: &[u8], at: usize, text: &[u8]) -> Result<usize, Refused>
    requires { at ≤ length s.now }
    ensures { Takes (fixed text.now ∷ []) at s.now result }
{
    taken(fixed_fault(s, at, text), at + text.len())
}

// ---- the reader

pub fn reader_at<'a>(file: &'a [u8], at: usize) -> Reader<'a>
    ensures { (result.file ≡ file.entry) × (result.at ≡ at) }
{
    Reader { file, at }
}

// A field of line i at the reader's position.
pub fn next_field<'a>(r: Reader<'a>, i: usize, part: u8) -> Result<usize, Refused>
    requires { (r.at ≤ length r.file.now) × (i < 24) × (part < 3) }
    ensures { Takes (field_no i part ∷ []) r.entry.at r.entry.file.now result }
{
    field_at(r.file, r.at, i, part)
}

// A fixed text, as a mark, at the reader's position.
pub fn next_fixed<'a, 'b>(r: Reader<'a>, text: &'b [u8]) -> Result<usize, Refused>
    requires { r.at ≤ length r.file.now }
    ensures { Takes (fixed text.now ∷ []) r.entry.at r.entry.file.now result }
{
    fixed_at(r.file, r.at, text)
}

// ---- the reader made and asked

pub fn read_field(s: &[u8], at: usize, i: usize, part: u8) -> Result<usize, Refused>
    requires { (at ≤ length s.now) × (i < 24) × (part < 3) }
    ensures { Takes (field_no i part ∷ []) at s.now result }
{
    next_field(reader_at(s, at), i, part)
}

pub fn read_fixed(s: &[u8], at: usize, text: &[u8]) -> Result<usize, Refused>
    requires { at ≤ length s.now }
    ensures { Takes (fixed text.now ∷ []) at s.now result }
{
    next_fixed(reader_at(s, at), text)
}
