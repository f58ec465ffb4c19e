// The file header: 65 bytes, mark, integrity data summed over these 65 bytes, mark.
ghost use Rattle.std.specs.Prelude.{◌≡◌, length};
ghost use Rattle.metafile.specs.Lines.{field_fault};
ghost use Rattle.metafile.specs.Header.{title_fault, mark_fault, header_fault};
ghost use Rattle.metafile.specs.Reading.{unbegun};
ghost use Rattle.metafile.specs.Refusals.{fault_in};
ghost use Rattle.walk.specs.Walk.{header_of};

use crate::answers::Header;
use lines::words;
use metafile::Refusal;
use table::{numbers, places};

// "1 first 65 bytes don't match", "2 NUL000 (tape)"
fn title_fault(v: &[u8]) -> Result<(), Refusal>
    requires { length v.now ≡ 65 }
    ensures { fault_in result ≡ title_fault v.now }
{
    if lines::lines_fault(v, 0, numbers::FORMAT_ID, 2).is_err() {
        return Err(Refusal::Title);
    }
    if lines::is_word(v, places::STRATEGY, words::LLC) {
        return Ok(());
    }
    if fields::count_value(&v[places::MARK_LENGTH..places::MARK_LENGTH_END]) == 0 {
        return Err(Refusal::Tape);
    }
    Ok(())
}

// The mark as a field of n bytes: "4 if the bytes end inside", "3 mark begins "MiniChunk=""
fn mark_fault(r: &[u8], n: usize) -> Result<(), Refusal>
    ensures { fault_in result ≡ field_fault n mark_fault r.now }
{
    if r.len() < n {
        return Err(Refusal::Short);
    }
    if lines::begins_mini(&r[..n]) {
        return Err(Refusal::MiniMark);
    }
    Ok(())
}

// The header's first fault.
fn header_fault(file: &[u8]) -> Result<(), Refusal>
    ensures { fault_in result ≡ header_fault file.now }
{
    if file.len() < places::MARK {
        return Err(Refusal::Short);
    }
    title_fault(&file[..places::MARK])?;
    let n = fields::count_value(&file[places::MARK_LENGTH..places::MARK_LENGTH_END]) as usize;
    mark_fault(&file[places::MARK..], n)?;
    chunk::closing_fault(file, places::MARK, &file[places::MARK..places::MARK + n])
}

// The number of a reading whose header isn't whole, of a file of so many bytes: the header's fault, and 0 for no bytes.
pub fn unbegun(length: usize, fault: u8) -> u8
    ensures { result ≡ unbegun length fault }
{
    if length == 0 {
        return 0;
    }
    fault
}

// The file header: its first fault, or where it ends, its mark, strategy and sum.
pub fn header(file: &[u8]) -> Header
    ensures { result ≡ header_of file.now }
{
    match header_fault(file) {
        Ok(()) => whole_header(file),
        Err(refusal) => Header {
            number: refusal.number(),
            end: 0,
            mark: 0,
            llc: false,
            good: false,
        },
    }
}

// The file header where it has no fault.
fn whole_header(file: &[u8]) -> Header
    requires { header_fault file.now ≡ 0 }
    ensures { result ≡ header_of file.now }
{
    let mark = fields::count_value(&file[places::MARK_LENGTH..places::MARK_LENGTH_END]) as usize;
    let llc = lines::is_word(file, places::STRATEGY, words::LLC);
    let good = chunk::sum_good(file, places::MARK, &file[places::MARK..places::MARK + mark]);
    Header {
        number: 0,
        end: places::MARK + mark + places::INTEGRITY_BYTES + mark,
        mark,
        llc,
        good,
    }
}
