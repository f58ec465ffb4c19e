// The lines of the listing, put word by word (crate text). Each function puts bytes at a place of a buffer and answers the
// place behind them. A number has at most 20 digits, so a row's line has at most 128 bytes, whatever the row is.
ghost use Rattle.std.specs.Prelude.{[], ◌∷◌, ◌++◌, ◌+◌, ◌*◌, ◌≤◌, length};
ghost use Rattle.metafile.specs.Listing.{good_or_bad, row_line, row_lines, end_line, header_word, listed};
ghost use Rattle.text.specs.Put.{Put};
ghost use Rattle.read.specs.Table.{table_rows, table_reading};
ghost use Rattle.listing_text.specs.Text.{numbers, head_lines};

use metafile::Row;
use read::local::Table;
use text::{put_decimal, put_word};

// Whether a sum is good, and the byte behind it.
fn put_sum(buffer: &mut [u8], at: usize, good: bool, behind: u8) -> usize
    requires { at + 5 ≤ length buffer.old }
    ensures { Put (good_or_bad good ++ behind ∷ []) at buffer.old result buffer.new × (result ≤ at + 5) }
{
    if good {
        return put_word(buffer, at, b"good", behind);
    }
    put_word(buffer, at, b"bad", behind)
}

// The numbers of row k, with a space behind each.
fn put_numbers(buffer: &mut [u8], at: usize, k: usize, row: &Row) -> usize
    requires { at + 84 ≤ length buffer.old }
    ensures { Put (numbers k row.now.place row.now.header row.now.bytes) at buffer.old result buffer.new × (result ≤ at + 84) }
{
    let a = put_decimal(buffer, at, k, b' ');
    let b = put_decimal(buffer, a, row.place, b' ');
    let c = put_decimal(buffer, b, row.header, b' ');
    put_decimal(buffer, c, row.bytes, b' ')
}

// "for each its row from 0, place, header bytes, contents bytes, sum (good or bad), serial"
fn put_row(buffer: &mut [u8], at: usize, k: usize, row: &Row) -> usize
    requires { at + 128 ≤ length buffer.old }
    ensures { Put (row_line k row.now) at buffer.old result buffer.new × (result ≤ at + 128) }
{
    let a = put_numbers(buffer, at, k, row);
    let b = put_sum(buffer, a, row.good, b' ');
    put_word(buffer, b, &row.serial, b'\n')
}

// The lines of all rows.
fn put_rows(buffer: &mut [u8], at: usize, rows: &[Row]) -> usize
    requires { at + 128 * length rows.now ≤ length buffer.old }
    ensures { Put (row_lines 0 rows.now) at buffer.old result buffer.new × (result ≤ at + 128 * length rows.now) }
{
    let mut p = at;
    for (i, row) in rows.iter().enumerate() {
        p = put_row(buffer, p, i, row);
    }
    p
}

// "then stop and number"
pub fn put_end(buffer: &mut [u8], at: usize, stop: usize, number: u8) -> usize
    requires { at + 46 ≤ length buffer.old }
    ensures { Put (end_line stop number) at buffer.old result buffer.new }
{
    let a = put_word(buffer, at, b"end", b' ');
    let b = put_decimal(buffer, a, stop, b' ');
    put_decimal(buffer, b, number as usize, b'\n')
}

// "The header's sum (good or bad)"; of a file of no bytes "none"
fn put_header_word(buffer: &mut [u8], at: usize, none: bool, good: bool) -> usize
    requires { at + 5 ≤ length buffer.old }
    ensures { Put (header_word none good ++ 10 ∷ []) at buffer.old result buffer.new × (result ≤ at + 5) }
{
    if none {
        return put_word(buffer, at, b"none", b'\n');
    }
    put_sum(buffer, at, good, b'\n')
}

// The header's word; "the count of rows"
fn put_head(buffer: &mut [u8], at: usize, none: bool, good: bool, count: usize) -> usize
    requires { at + 40 ≤ length buffer.old }
    ensures { Put (head_lines none good count) at buffer.old result buffer.new × (result ≤ at + 40) }
{
    let a = put_word(buffer, at, b"header", b' ');
    let b = put_header_word(buffer, a, none, good);
    let c = put_word(buffer, b, b"chunks", b' ');
    put_decimal(buffer, c, count, b'\n')
}

// The listing of a table, read from a file of no bytes or not, at the start of a buffer that has room for any.
pub fn put_listed(buffer: &mut [u8], none: bool, table: &Table) -> usize
    requires { (table.now.answer.count ≤ table_rows) × (table.now.answer.count ≤ length table.now.rows) × (10240 ≤ length buffer.old) }
    ensures { Put (listed none (table_reading table.now.rows table.now.answer)) 0 buffer.old result buffer.new }
{
    let answer = table.answer;
    let a = put_head(buffer, 0, none, answer.good, answer.count);
    let b = put_rows(buffer, a, &table.rows[..answer.count]);
    put_end(buffer, b, answer.stop, answer.number)
}
