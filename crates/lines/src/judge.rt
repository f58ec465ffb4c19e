// A value by its line's kind, which the table gives, at the start of the bytes: refused "if the bytes end inside a field, else by its own fault". "A
// listed word and the 38 bytes after it are two" fields.
ghost use Rattle.std.specs.Prelude.{◌≡◌, [], ◌∷◌, ◌-◌, ◌^◌, ◌≤◌, ◌<◌, length, take, MatchResult};
ghost use Rattle.metafile.specs.declared.refusal.Refusal.TheVariants.{Short};
ghost use Rattle.metafile.specs.Refusals.{number_of, fault_in};
ghost use Rattle.metafile.specs.Bytes.{require};
ghost use Rattle.metafile.specs.Lines.{field_fault, count_fault, text_fault, date_fault, offset_fault, serial_fault, word_fault, free_fault, kind_fault, strategy, time_standard, event_synch};
ghost use Rattle.table.specs.Codes.{line_no};
ghost use Rattle.lines.specs.Words.{word_no};

use crate::words;
use crate::words::is_word;
use metafile::{Day, Refusal};
use table::{Kind, places};

// Taken where the test holds, else refused so.
pub fn verdict(good: bool, refusal: Refusal) -> Result<(), Refusal>
    ensures { fault_in result ≡ require good (number_of refusal) }
{
    if good { Ok(()) } else { Err(refusal) }
}

// The n bytes of a field.
fn field(s: &[u8], n: usize) -> Result<&[u8], Refusal>
    ensures { MatchResult result (λ v. (n ≤ length s.now) × (v.now ≡ take n s.now)) (λ r. (r ≡ Short) × (length s.now < n)) }
{
    s.get(..n).ok_or(Refusal::Short)
}

// ---- one field

// a count of n bytes, which comes to at most n nines
fn number_fault(s: &[u8], n: usize) -> Result<(), Refusal>
    ensures { fault_in result ≡ field_fault n (count_fault (10 ^ n - 1)) s.now }
{
    let v = field(s, n)?;
    verdict(fields::is_count(v), Refusal::Form)
}

// a count of n bytes that comes to at most so much
fn count_fault(s: &[u8], n: usize, most: u64) -> Result<(), Refusal>
    requires { n ≤ 12 }
    ensures { fault_in result ≡ field_fault n (count_fault most) s.now }
{
    let v = field(s, n)?;
    verdict(
        fields::is_count(v) & (fields::count_value(v) <= most),
        Refusal::Form,
    )
}

fn text_fault(s: &[u8], n: usize) -> Result<(), Refusal>
    ensures { fault_in result ≡ field_fault n text_fault s.now }
{
    let v = field(s, n)?;
    verdict(fields::is_text(v), Refusal::Form)
}

fn date_fault(s: &[u8]) -> Result<(), Refusal>
    ensures { fault_in result ≡ field_fault 8 date_fault s.now }
{
    let v = field(s, places::DATE)?;
    Day::fault(fields::read_date(v))
}

fn offset_fault(s: &[u8]) -> Result<(), Refusal>
    ensures { fault_in result ≡ field_fault 16 offset_fault s.now }
{
    let v = field(s, places::OFFSET)?;
    verdict(fields::is_offset(v), Refusal::Form)
}

fn serial_fault(s: &[u8]) -> Result<(), Refusal>
    ensures { fault_in result ≡ field_fault 38 serial_fault s.now }
{
    let v = field(s, places::SERIAL)?;
    Day::fault(fields::read_serial(fields::serial_from(v)))
}

// n bytes of any value
fn free_fault(s: &[u8], n: usize) -> Result<(), Refusal>
    ensures { fault_in result ≡ field_fault n free_fault s.now }
{
    field(s, n)?;
    Ok(())
}

// one of two listed words
fn word_fault(s: &[u8], a: usize, b: usize) -> Result<(), Refusal>
    requires { (a < 10) × (b < 10) }
    ensures { fault_in result ≡ field_fault 3 (word_fault (word_no a ∷ word_no b ∷ [])) s.now }
{
    let v = field(s, places::WORD)?;
    verdict(is_word(v, 0, a) | is_word(v, 0, b), Refusal::Differs)
}

// ---- two fields

// LLC or NUL, I3 mark length
fn strategy_fault(s: &[u8]) -> Result<(), Refusal>
    ensures { fault_in result ≡ kind_fault strategy s.now }
{
    word_fault(s, words::LLC, words::NUL)?;
    count_fault(&s[places::WORD..], places::MARK_DIGITS, 999)
}

// UTC, NUL or ALT, then 38 bytes: a serial number after ALT
fn standard_fault(s: &[u8]) -> Result<(), Refusal>
    ensures { fault_in result ≡ kind_fault time_standard.kind s.now }
{
    let v = field(s, places::WORD)?;
    if is_word(v, 0, words::ALT) {
        return serial_fault(&s[places::WORD..]);
    }
    if is_word(v, 0, words::UTC) | is_word(v, 0, words::NUL) {
        return free_fault(&s[places::WORD..], places::SERIAL);
    }
    Err(Refusal::Differs)
}

// NUL, SLV or MAS, then 38 bytes: a serial number after SLV and MAS
fn event_fault(s: &[u8]) -> Result<(), Refusal>
    ensures { fault_in result ≡ kind_fault event_synch.kind s.now }
{
    let v = field(s, places::WORD)?;
    if is_word(v, 0, words::SLV) | is_word(v, 0, words::MAS) {
        return serial_fault(&s[places::WORD..]);
    }
    if is_word(v, 0, words::NUL) {
        return free_fault(&s[places::WORD..], places::SERIAL);
    }
    Err(Refusal::Differs)
}

// ---- the value of line i

pub fn value_fault(s: &[u8], i: usize) -> Result<(), Refusal>
    requires { i < 24 }
    ensures { fault_in result ≡ kind_fault (line_no i).kind s.now }
{
    let line = table::line_at(i);
    let kind = line.kind;
    let width = line.width as usize;
    match kind {
        Kind::Number => number_fault(s, width),
        Kind::Checksum => count_fault(s, width, 255),
        Kind::Text => text_fault(s, width),
        Kind::Date => date_fault(s),
        Kind::Offset => offset_fault(s),
        Kind::Serial => serial_fault(s),
        Kind::Generic => word_fault(s, words::BIN, words::TXT),
        Kind::Synch => word_fault(s, words::GEN, words::SPE),
        Kind::Standard => standard_fault(s),
        Kind::Event => event_fault(s),
        Kind::Strategy => strategy_fault(s),
    }
}
