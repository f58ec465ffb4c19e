// Append's tests, in the order 11, 12, 6, 17, 13, 9, 15, 16, 18: the first that refuses gives the number. The file is read
// between 11 and 12: the others go by its survey.
ghost use Rattle.std.specs.Prelude.{false, ◌++◌, ◌≡◌, ◌+◌, ◌*◌, ◌≤◌, length as size, take};
ghost use Rattle.metafile.specs.Bytes.{same, find};
ghost use Rattle.metafile.specs.Chunk.{multi_name};
ghost use Rattle.metafile.specs.Reading.{reading, is_clean};
ghost use Rattle.metafile.specs.Refusals.{fault_in};
ghost use Rattle.metafile.specs.Answers.{first_refusal};
ghost use Rattle.metafile.specs.Append.{sub_format_given, append_formed, append_over_limit, append_tests};
ghost use Rattle.walk.specs.Walk.{header_of};
ghost use Rattle.walk.specs.Survey.{survey_of};
ghost use Rattle.append.specs.Given.{given_in};
ghost use Rattle.append.specs.Tests.{description_tests, file_tests, open_refused};

use crate::Given;
use lines::words;
use metafile::clean::clean_at;
use metafile::{Description, Refusal, over_limit};
use table::{numbers, places};
use walk::{Header, Survey};

// A chunk's bytes up to its data, without parents and specific data.
const CHUNK_HEADER: usize = places::DEPENDENCIES + places::CONTENT_LENGTH_BYTES;

// 12
fn is_clean(file: &[u8], number: u8, stop: usize) -> bool
    requires { (number ≡ (reading file.now).number) × (stop ≡ (reading file.now).stop) }
    ensures { result ≡ is_clean file.now (reading file.now) }
{
    clean_at(file.len(), number, stop)
}

// 6: each field as the reader judges it; an over-long text first.
fn is_formed(d: Description) -> bool
    ensures { result ≡ append_formed d }
{
    if places::NAME < d.subformat.given
        || places::AGENT < d.recorder.given
        || places::AGENT < d.writer.given
    {
        return false;
    }
    let given = writer::given_values(d);
    let closing = writer::closing_values(d);
    lines::values_formed(numbers::SUB_FORMAT_ID, 6, &given)
        & lines::values_formed(numbers::CHUNK_SERIAL, 5, &closing)
}

// 17
fn is_multichunk(d: Description) -> bool
    requires { d.subformat.given ≤ 256 }
    ensures { result ≡ same (sub_format_given d) multi_name }
{
    let given = writer::given_values(d);
    chunk::is_multi_name(&given[..places::NAME])
}

fn description_refusal(d: Description) -> Result<(), Refusal>
    ensures { fault_in result ≡ first_refusal (description_tests d) }
{
    if !is_formed(d) {
        return Err(Refusal::Form);
    }
    if is_multichunk(d) {
        return Err(Refusal::Multichunk);
    }
    Ok(())
}

// 13, 9, 15: against the number of rows, the serial number in a row or not, and the mark of a file whose header is whole.
fn file_refusal(
    file: &[u8],
    h: Header,
    count: usize,
    known: bool,
    parents: &[usize],
) -> Result<(), Refusal>
    requires h_value { h ≡ header_of file.now }
    requires number_value { h.number ≡ 0 }
    ensures { fault_in result ≡ first_refusal (file_tests file.now count known parents.now) }
{
    if writer::parents_wrong(count, parents) {
        return Err(Refusal::NoRow);
    }
    if known {
        return Err(Refusal::KnownSerial);
    }
    let end = places::MARK + h.mark;
    if !writer::is_clear(&file[places::MARK..end]) {
        return Err(Refusal::ZeroInMark);
    }
    Ok(())
}

// The first place of the mark in data and mark, which are searched without being joined.
fn first_found(mark: &[u8], contents: &[u8]) -> usize
    ensures { result ≡ find mark.now (contents.now ++ mark.now) }
{
    search::find_mark(mark, contents, mark)
}

impl Given<'_> {
    // 11: a lent byte buffer over the limit, or length over the buffer's.
    pub fn over_limit(&self, buffer: &[u8], length: usize) -> bool
        ensures { result ≡ append_over_limit buffer.now length (given_in self.now) }
    {
        over_limit(&[
            buffer.len(),
            self.specific.len(),
            self.contents.len(),
            self.description.subformat.given,
            self.description.recorder.given,
            self.description.writer.given,
        ]) || buffer.len() < length
    }

    // 16
    fn open_wrong(&self, file: &[u8], h: Header) -> bool
        requires h_value { h ≡ header_of file.now }
        requires number_value { h.number ≡ 0 }
        ensures { result ≡ open_refused file.now self.now.description.generic self.now.contents.now self.now.is_open }
    {
        if !self.is_open {
            return false;
        }
        let mark = &file[places::MARK..places::MARK + h.mark];
        h.llc
            | lines::is_word(&self.description.generic, 0, words::BIN)
            | (first_found(mark, self.contents) < self.contents.len())
    }

    // The place behind the new chunk.
    fn new_end(&self, length: usize, mark: usize) -> usize
        requires { (length ≤ 1073741824) × (size self.now.parents.now ≤ 16) × (size self.now.specific.now ≤ 1073741824) × (size self.now.contents.now ≤ 1073741824) × (mark ≤ 1073741824) }
        ensures { result ≡ length + (602 + 344 * size self.now.parents.now + size self.now.specific.now) + size self.now.contents.now + (254 + 2 * mark) }
    {
        length
            + (CHUNK_HEADER + places::DEPENDENCY_BYTES * self.parents.len() + self.specific.len())
            + self.contents.len()
            + (places::INTEGRITY_BYTES + 2 * mark)
    }

    // All tests but 11, which what is lent has passed.
    pub fn refusal(&self, buffer: &[u8], length: usize, survey: Survey) -> Result<(), Refusal>
        requires open_value { append_over_limit buffer.now length (given_in self.now) ≡ false }
        requires survey_value { survey ≡ survey_of (take length buffer.now) self.now.description.serial self.now.parents.now }
        ensures { fault_in result ≡ first_refusal (append_tests buffer.now length (given_in self.now)) }
    {
        let file = &buffer[..length];
        if !is_clean(file, survey.number, survey.stop) {
            return Err(Refusal::NotClean);
        }
        description_refusal(self.description)?;
        let h = walk::header(file);
        file_refusal(file, h, survey.count, survey.known, self.parents)?;
        if self.open_wrong(file, h) {
            return Err(Refusal::Open);
        }
        let end = self.new_end(length, h.mark);
        if buffer.len() < end {
            return Err(Refusal::NoRoom);
        }
        Ok(())
    }
}
