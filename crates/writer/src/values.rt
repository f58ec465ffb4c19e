// The values of the lines of a chunk, one behind the other, from the description: a shorter text is padded with
// spaces; the 38 bytes behind a listed word are the serial number given after ALT, SLV and MAS, and spaces elsewhere.
ghost use Rattle.std.specs.Prelude.{cond, [], ◌∷◌, ◌++◌, ◌≡◌, ◌+◌, ◌≤◌, length, replicate};
ghost use Rattle.metafile.specs.Fields.{digits_of, padded};
ghost use Rattle.metafile.specs.Lines.{time_standard, event_synch};
ghost use Rattle.metafile.specs.Closing.{integrity_values};
ghost use Rattle.metafile.specs.Append.{stamp_given, given_values, integrity_given};
ghost use Rattle.writer.specs.Values.{joined, head_values_for};

use lines::words;
use metafile::Description;
use table::places;

// Where values begin that stand one behind the other: those of the lines from SubFormat_ID to Chunk_Event_Synch,
const GENERIC: usize = places::NAME;

const SYNCH: usize = GENERIC + places::WORD;

const STANDARD: usize = SYNCH + places::WORD;

const OFFSET: usize = STANDARD + places::WORD + places::SERIAL;

const EVENT: usize = OFFSET + places::OFFSET;

const EVENT_END: usize = EVENT + places::WORD + places::SERIAL;

// of the integrity data,
const RECORDING_AGENT: usize = places::SERIAL + places::DATE;

const WRITING_DATE: usize = RECORDING_AGENT + places::AGENT;

const WRITING_AGENT: usize = WRITING_DATE + places::DATE;

// and of the head.
const DEPENDENCY_LENGTH: usize = places::LENGTH + EVENT_END;

const DEPENDENCY_COUNT: usize = DEPENDENCY_LENGTH + places::LENGTH;

// A listed word and 38 bytes: a serial number, or spaces.
fn stamp(word: [u8; 3], serial: [u8; 38], follows: bool) -> [u8; 41]
    ensures { result ≡ word ++ cond follows serial (replicate 38 32) }
{
    let mut values = [32u8; 41];
    lines::put_bytes(&mut values, 0, &word);
    if follows {
        lines::put_bytes(&mut values, places::WORD, &serial);
    }
    values
}

fn standard_stamp(word: [u8; 3], serial: [u8; 38]) -> [u8; 41]
    ensures { result ≡ stamp_given time_standard.kind word serial }
{
    stamp(word, serial, lines::is_word(&word, 0, words::ALT))
}

fn event_stamp(word: [u8; 3], serial: [u8; 38]) -> [u8; 41]
    ensures { result ≡ stamp_given event_synch.kind word serial }
{
    stamp(
        word,
        serial,
        lines::is_word(&word, 0, words::SLV) | lines::is_word(&word, 0, words::MAS),
    )
}

// The values of the lines from SubFormat_ID to Chunk_Event_Synch.
fn lined_up(
    name: &[u8],
    generic: [u8; 3],
    synch: [u8; 3],
    standard: [u8; 41],
    offset: [u8; 16],
    event: [u8; 41],
) -> [u8; 360]
    requires { length name.now ≤ 256 }
    ensures { result ≡ joined (padded 256 name.now ∷ generic ∷ synch ∷ standard ∷ offset ∷ event ∷ []) }
{
    let mut values = [32u8; 360];
    lines::put_bytes(&mut values, 0, name);
    lines::put_bytes(&mut values, GENERIC, &generic);
    lines::put_bytes(&mut values, SYNCH, &synch);
    lines::put_bytes(&mut values, STANDARD, &standard);
    lines::put_bytes(&mut values, OFFSET, &offset);
    lines::put_bytes(&mut values, EVENT, &event);
    values
}

pub fn given_values(d: Description) -> [u8; 360]
    requires { d.subformat.given ≤ 256 }
    ensures { result ≡ joined (given_values d) }
{
    lined_up(
        &d.subformat.bytes[..d.subformat.given],
        d.generic,
        d.synch,
        standard_stamp(d.standard, d.alternate),
        d.offset,
        event_stamp(d.event, d.linked),
    )
}

// The values of the integrity data's lines, one behind the other, agents padded with spaces.
pub fn integrity_values(
    serial: [u8; 38],
    recorded: [u8; 8],
    recorder: &[u8],
    written: [u8; 8],
    writer: &[u8],
) -> [u8; 118]
    requires { (length recorder.now ≤ 32) × (length writer.now ≤ 32) }
    ensures { result ≡ serial ++ recorded ++ padded 32 recorder.now ++ written ++ padded 32 writer.now }
{
    let mut values = [32u8; 118];
    lines::put_bytes(&mut values, 0, &serial);
    lines::put_bytes(&mut values, places::SERIAL, &recorded);
    lines::put_bytes(&mut values, RECORDING_AGENT, recorder);
    lines::put_bytes(&mut values, WRITING_DATE, &written);
    lines::put_bytes(&mut values, WRITING_AGENT, writer);
    values
}

// The values of the five lines before the sum's.
pub fn closing_values(d: Description) -> [u8; 118]
    requires { (d.recorder.given ≤ 32) × (d.writer.given ≤ 32) }
    ensures { result ≡ joined (integrity_values (integrity_given d)) }
{
    integrity_values(
        d.serial,
        d.recorded,
        &d.recorder.bytes[..d.recorder.given],
        d.written,
        &d.writer.bytes[..d.writer.given],
    )
}

// The values of the head for n parents and s bytes of specific data: header length, the lines given, dependency length,
// dependency count.
pub fn head_values(d: Description, n: usize, s: usize) -> [u8; 388]
    requires { (d.subformat.given ≤ 256) × (n ≤ 16) × (s ≤ 1073741824) }
    ensures { result ≡ joined (head_values_for d n s) }
{
    let given = given_values(d);
    let mut values = [32u8; 388];
    lines::put_number(
        &mut values,
        0,
        places::LENGTH,
        (places::LEAST_HEADER_LENGTH + places::DEPENDENCY_BYTES * n + s) as u64,
    );
    lines::put_bytes(&mut values, places::LENGTH, &given);
    lines::put_number(
        &mut values,
        DEPENDENCY_LENGTH,
        places::LENGTH,
        (places::LEAST_DEPENDENCY_LENGTH + places::DEPENDENCY_BYTES * n) as u64,
    );
    lines::put_number(&mut values, DEPENDENCY_COUNT, places::COUNT, n as u64);
    values
}

// The value of the content length line: "The count is the data's length plus 1", 0 if open.
pub fn count_value(open: bool, long: usize) -> [u8; 12]
    requires { long ≤ 1073741824 }
    ensures { result ≡ digits_of 12 (cond «open» 0 (long + 1)) }
{
    let count = if open { 0 } else { long + 1 };
    let mut values = [32u8; 12];
    lines::put_number(&mut values, 0, places::LENGTH, count as u64);
    values
}

// "Each parent's serial and sub-format are copied from its chunk": the two.
pub fn parent_values(serial: [u8; 38], name: &[u8]) -> [u8; 294]
    requires { length name.now ≡ 256 }
    ensures { result ≡ joined (serial ∷ name.now ∷ []) }
{
    let mut values = [32u8; 294];
    lines::put_bytes(&mut values, 0, &serial);
    lines::put_bytes(&mut values, places::SERIAL, name);
    values
}
