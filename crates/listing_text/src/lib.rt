// The listing ("The desk's slip"): the text of the rows of a metafile, made from a reading with rows enough. A file of
// 65,536 bytes has at most 76 rows, since a row takes 856 bytes; they are read into a table by value (read::local). The
// text is made in a local array, so that nothing is written where the lent buffer is too short for it, and then copied.
//     listed   the lines of the text, put one behind the other
// The contract cites listing of the crate metafile (specs/Listing) by listing_outcome of specs/Text; the laws are in
// proofs/Texts (the text by its pieces) and proofs/Answers (the two refusals).
#![tactic(auto)]

mod listed;

ghost use Rattle.std.specs.Prelude.{◌≡◌, ◌≤◌, length};
ghost use Rattle.metafile.specs.Answers.{outcome, count_answer};
ghost use Rattle.metafile.specs.Listing.{listing};
ghost use Rattle.text.specs.Put.{Put};
ghost use Rattle.listing_text.specs.Text.{listing_outcome};

use metafile::{Refusal, over_limit};
use read::local;

// "A program reads a file of up to 65,536 bytes"
const MOST: usize = 65536;

// The whole text, at the start of a buffer that has room for any.
fn put_listing(buffer: &mut [u8], input: &[u8]) -> usize
    requires { 10240 ≤ length buffer.old }
    ensures { Put (listing input.now) 0 buffer.old result buffer.new }
{
    if MOST < input.len() {
        return listed::put_end(buffer, 0, 0, Refusal::OverLimit.number());
    }
    let table = local::read_table(input);
    listed::put_listed(buffer, input.is_empty(), &table)
}

// Puts the text at the start of the buffer, and answers its length. Tests 11, of the buffer alone, then 18: an input that is
// too long is no refusal, but has a text of its own.
pub fn listing(input: &[u8], buffer: &mut [u8]) -> Result<usize, Refusal>
    ensures { outcome (count_answer result) buffer.new ≡ listing_outcome input.now buffer.old }
{
    if over_limit(&[buffer.len()]) {
        return Err(Refusal::OverLimit);
    }
    let mut text = [0u8; 10240];
    let n = put_listing(&mut text, input);
    if buffer.len() < n {
        return Err(Refusal::NoRoom);
    }
    buffer[..n].copy_from_slice(&text[..n]);
    Ok(n)
}
