// The writer's runs: the values of lines stand one behind the other, each as wide as its line's kind. They are judged by
// the reader's own rule, and put between labels and LF; a number is put in digits; the closing is put behind the bytes
// that its sum covers.
ghost use Rattle.std.specs.Prelude.{◌≡◌, [], ◌∷◌, ◌+◌, ◌-◌, ◌≤◌, ◌<◌, length};
ghost use Rattle.metafile.specs.Bytes.{part};
ghost use Rattle.metafile.specs.Fields.{digits_of};
ghost use Rattle.metafile.specs.Lines.{lines_of, size, width, write, formed};
ghost use Rattle.metafile.specs.Closing.{integrity_lines};
ghost use Rattle.metafile.specs.Answers.{placed};
ghost use Rattle.table.specs.Codes.{line_no, lines_from};
ghost use Rattle.lines.specs.Values.{chopped, values_size, closing_for};

use crate::reader::{VALUE, read_field};
use table::{numbers, places};

// The lines of the integrity data before the sum's.
const BEFORE_SUM: usize = numbers::CHECKSUM - numbers::CHUNK_SERIAL;

fn value_bytes(i: usize) -> usize
    requires { i < 24 }
    ensures { result ≡ width (line_no i).kind }
{
    let line = table::line_at(i);
    line.width as usize
}

// Each value is one that the reader takes.
pub fn values_formed(first: usize, n: usize, values: &[u8]) -> bool
    requires { (first + n ≤ 24) × (length values.now ≡ values_size (lines_from first n)) }
    ensures { result ≡ formed (lines_of (lines_from first n)) (chopped (lines_from first n) values.now) }
{
    let mut v = 0;
    for i in first..first + n {
        let Ok(next) = read_field(values, v, i, VALUE) else {
            return false;
        };
        v = next;
    }
    true
}

// Bytes at a place of the buffer; each of these answers the place behind what it put.
pub fn put_bytes(buffer: &mut [u8], at: usize, s: &[u8]) -> usize
    requires { at + length s.now ≤ length buffer.old }
    ensures { (result ≡ at + length s.now) × (buffer.new ≡ placed at s.now buffer.old) }
{
    let end = at + s.len();
    buffer[at..end].copy_from_slice(s);
    end
}

// A number in n digits.
pub fn put_number(buffer: &mut [u8], at: usize, n: usize, x: u64) -> usize
    requires { at + n ≤ length buffer.old }
    ensures { (result ≡ at + n) × (buffer.new ≡ placed at (digits_of n x) buffer.old) }
{
    let mut rest = x;
    for k in (0..n).rev() {
        buffer[at + k] = b'0' + (rest % 10) as u8;
        rest /= 10;
    }
    at + n
}

// Line i, its value standing at a place of the values.
fn put_line(buffer: &mut [u8], at: usize, i: usize, values: &[u8], v: usize) -> usize
    requires { (i < 24) × (v + width (line_no i).kind ≤ length values.now) × (at + size (lines_of (line_no i ∷ [])) ≤ length buffer.old) }
    ensures { (result ≡ at + size (lines_of (line_no i ∷ []))) × (buffer.new ≡ placed at (write (lines_of (line_no i ∷ [])) (part v (width (line_no i).kind) values.now ∷ [])) buffer.old) }
{
    let p = table::put_label(buffer, at, i);
    let w = value_bytes(i);
    let q = put_bytes(buffer, p, &values[v..v + w]);
    buffer[q] = 10;
    q + 1
}

// n lines from the first on.
pub fn put_lines(buffer: &mut [u8], at: usize, first: usize, n: usize, values: &[u8]) -> usize
    requires { (first + n ≤ 24) × (length values.now ≡ values_size (lines_from first n)) × (at + size (lines_of (lines_from first n)) ≤ length buffer.old) }
    ensures { (result ≡ at + size (lines_of (lines_from first n))) × (buffer.new ≡ placed at (write (lines_of (lines_from first n)) (chopped (lines_from first n) values.now)) buffer.old) }
{
    let mut p = at;
    let mut v = 0;
    for i in first..first + n {
        p = put_line(buffer, p, i, values, v);
        v += value_bytes(i);
    }
    p
}

// The closing behind the bytes from `from` to `at`: mark, integrity data with the sum of what stands before its digits,
// mark.
pub fn put_closing(buffer: &mut [u8], from: usize, at: usize, mark: &[u8], values: &[u8]) -> usize
    requires { (from ≤ at) × (at + length mark.now + 254 + length mark.now ≤ length buffer.old) × (length values.now ≡ 118) }
    ensures { (result ≡ at + length mark.now + 254 + length mark.now) × (buffer.new ≡ placed at (closing_for mark.now (chopped integrity_lines values.now) (part from (at - from) buffer.old)) buffer.old) }
{
    let lines = put_bytes(buffer, at, mark);
    let label = put_lines(buffer, lines, numbers::CHUNK_SERIAL, BEFORE_SUM, values);
    let digits = table::put_label(buffer, label, numbers::CHECKSUM);
    let sum = sums::word_sum(&buffer[from..digits]);
    let end = put_number(buffer, digits, places::SUM, u64::from(sum));
    buffer[end] = 10;
    put_bytes(buffer, end + 1, mark)
}
