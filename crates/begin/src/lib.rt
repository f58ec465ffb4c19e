// begin: the file header, written at the start of a lent buffer ("File header"). "Begin is given strategy, mark, serial,
// both dates and both agents, writes these bytes at the start of a lent buffer and answers their number." `refusal` makes
// the tests in their order, `put_header` writes what none of them refuses. The contract of `begin` equates answer and
// buffer, refusals included, with begin of the crate metafile (specs/Begin). The header's lines are judged and written by
// the crate lines, from the table of lines; the values of the integrity data are put together by the crate writer.
#![tactic(auto)]

ghost use Rattle.std.specs.Prelude.{◌≡◌, true, ◌++◌, ◌≤◌, length};
ghost use Rattle.metafile.specs.Bytes.{same};
ghost use Rattle.metafile.specs.Lines.{NUL};
ghost use Rattle.metafile.specs.Fields.{digits_of, padded};
ghost use Rattle.metafile.specs.Refusals.{fault_in};
ghost use Rattle.metafile.specs.Answers.{outcome, count_answer, first_refusal, placed};
ghost use Rattle.metafile.specs.Begin.{begun_file, begin_formed, begin_tests, begin};
ghost use Rattle.begin.specs.Given.{given_of, given_in};

use lines::words;
use metafile::{Refusal, over_limit};
use table::{numbers, places};

// The header's bytes beside its two marks: the 65 bytes and the integrity data.
const HEADER: usize = places::MARK + places::INTEGRITY_BYTES;

// The strategy is NUL.
fn is_nul(strategy: [u8; 3]) -> bool
    ensures { result ≡ same strategy NUL }
{
    lines::is_word(&strategy, 0, words::NUL)
}

// The values of the title's lines: the strategy, and the mark length in three digits.
fn title_values(strategy: [u8; 3], mark: usize) -> [u8; 6]
    ensures { result ≡ strategy ++ digits_of 3 mark }
{
    let mut values = [0u8; 6];
    let at = lines::put_bytes(&mut values, 0, &strategy);
    lines::put_number(&mut values, at, 3, mark as u64);
    values
}

// What begin is given beside the buffer.
#[derive(Clone, Copy)]
struct Given<'a> {
    strategy: [u8; 3],
    mark: &'a [u8],
    serial: [u8; 38],
    recorded: [u8; 8],
    recorder: &'a [u8],
    written: [u8; 8],
    writer: &'a [u8],
}

impl Given<'_> {
    // The values of the integrity data's lines.
    fn integrity_values(&self) -> [u8; 118]
        requires { (length self.now.recorder.now ≤ 32) × (length self.now.writer.now ≤ 32) }
        ensures { result ≡ self.now.serial ++ self.now.recorded ++ padded 32 self.now.recorder.now ++ self.now.written ++ padded 32 self.now.writer.now }
    {
        writer::integrity_values(
            self.serial,
            self.recorded,
            self.recorder,
            self.written,
            self.writer,
        )
    }

    // Strategy, mark length, serial number, dates and agents are in form, as the reader judges them; no text is over-long.
    fn is_formed(&self) -> bool
        ensures { result ≡ begin_formed (given_in self.now) }
    {
        if 999 < self.mark.len()
            || places::AGENT < self.recorder.len()
            || places::AGENT < self.writer.len()
        {
            return false;
        }
        let title = title_values(self.strategy, self.mark.len());
        lines::values_formed(numbers::FORMAT_ID, 2, &title)
            & lines::values_formed(numbers::CHUNK_SERIAL, 5, &self.integrity_values())
    }

    // "begin 11, 6, 2, 3, 15, 18": the first test that refuses.
    #[tactic(auto, unfolding(metafile::specs::Begin::begin_tests, metafile::specs::Answers::first_refusal, metafile::specs::Answers::refuse))]
    fn refusal(&self, buffer: &[u8]) -> Result<(), Refusal>
        ensures { fault_in result ≡ first_refusal (begin_tests (given_in self.now) buffer.now) }
    {
        if over_limit(&[
            buffer.len(),
            self.mark.len(),
            self.recorder.len(),
            self.writer.len(),
        ]) {
            return Err(Refusal::OverLimit);
        }
        if !self.is_formed() {
            return Err(Refusal::Form);
        }
        if is_nul(self.strategy) & self.mark.is_empty() {
            return Err(Refusal::Tape);
        }
        if lines::begins_mini(self.mark) {
            return Err(Refusal::MiniMark);
        }
        if !writer::is_clear(self.mark) {
            return Err(Refusal::ZeroInMark);
        }
        if buffer.len() < HEADER + 2 * self.mark.len() {
            return Err(Refusal::NoRoom);
        }
        Ok(())
    }

    // The 65 bytes, and the closing that is summed over them.
    fn put_header(&self, buffer: &mut [u8]) -> usize
        requires { (begin_formed (given_in self.now) ≡ true) × (length (begun_file (given_in self.now)) ≤ length buffer.old) }
        ensures { (result ≡ length (begun_file (given_in self.now))) × (buffer.new ≡ placed 0 (begun_file (given_in self.now)) buffer.old) }
    {
        let title = title_values(self.strategy, self.mark.len());
        let values = self.integrity_values();
        let at = lines::put_lines(buffer, 0, numbers::FORMAT_ID, 2, &title);
        lines::put_closing(buffer, 0, at, self.mark, &values)
    }
}

pub fn begin(
    strategy: [u8; 3],
    mark: &[u8],
    serial: [u8; 38],
    recorded: [u8; 8],
    recorder: &[u8],
    written: [u8; 8],
    writer: &[u8],
    buffer: &mut [u8],
) -> Result<usize, Refusal>
    ensures { outcome (count_answer result) buffer.new ≡ begin (given_of strategy mark.now serial recorded recorder.now written writer.now) buffer.old }
{
    let given = Given {
        strategy,
        mark,
        serial,
        recorded,
        recorder,
        written,
        writer,
    };
    given.refusal(buffer)?;
    Ok(given.put_header(buffer))
}
