// The contents of a chunk, over the bytes r that follow the header: a content length line and data, or those of a
// MultiChunk. Counted data are never searched for the mark.
ghost use Rattle.std.specs.Prelude.{◌≡◌};
ghost use Rattle.metafile.specs.Chunk.{data_bytes, contents_fault, contents_from, contents_long};
ghost use Rattle.metafile.specs.Refusals.{fault_in};
ghost use Rattle.multi.specs.Part.{part_in};
ghost use Rattle.chunk.specs.Layout.{length_line_fault, plain_part, contents_part};

use crate::counts::count_at;
use lines::reader::END;
use metafile::Refusal;
use table::{numbers, places};

// The content length line. Under LLC a count of 0 is refused, before the LF.
fn length_line_fault(r: &[u8], llc: bool) -> Result<(), Refusal>
    ensures { fault_in result ≡ length_line_fault llc r.now }
{
    let line = lines::read_opened(r, 0, numbers::CONTENT_LENGTH)?;
    if llc & (count_at(r, places::CONTENT_LENGTH, places::LENGTH) == 0) {
        return Err(Refusal::Length);
    }
    lines::read_field(r, line, numbers::CONTENT_LENGTH, END)?;
    Ok(())
}

// The bytes of the data: up to the first mark where the count is 0, else one less than the count.
fn data_bytes(rest: &[u8], mark: &[u8], count: usize) -> usize
    ensures { result ≡ data_bytes mark.now count rest.now }
{
    if count == 0 {
        return search::find_mark(mark, rest, &rest[..0]);
    }
    count - 1
}

// Plain contents: the content length line and the data.
fn plain_part(r: &[u8], llc: bool, mark: &[u8]) -> Result<usize, Refusal>
    ensures { part_in result ≡ plain_part llc mark.now r.now }
{
    length_line_fault(r, llc)?;
    let rest = &r[places::CONTENT_LENGTH_BYTES..];
    let bytes = data_bytes(
        rest,
        mark,
        count_at(r, places::CONTENT_LENGTH, places::LENGTH),
    );
    if rest.len() < bytes {
        return Err(Refusal::Short);
    }
    Ok(bytes)
}

// Contents of either sort.
pub fn contents_part(r: &[u8], multichunk: bool, llc: bool, mark: &[u8]) -> Result<usize, Refusal>
    ensures { part_in result ≡ contents_part multichunk llc mark.now r.now }
{
    if multichunk {
        return multi::multi_part(r);
    }
    plain_part(r, llc, mark)
}

// The bytes of contents known to be whole.
pub fn whole_bytes(r: &[u8], multichunk: bool, llc: bool, mark: &[u8]) -> usize
    requires { contents_fault multichunk llc mark.now r.now ≡ 0 }
    ensures { result ≡ contents_long multichunk mark.now r.now }
{
    if multichunk {
        return multi::multi_part(r).unwrap_or(0);
    }
    data_bytes(
        &r[places::CONTENT_LENGTH_BYTES..],
        mark,
        count_at(r, places::CONTENT_LENGTH, places::LENGTH),
    )
}

// How far behind the header the contents begin: after the content length line, or at a MultiChunk's first line.
pub fn contents_from(multichunk: bool) -> usize
    ensures { result ≡ contents_from multichunk }
{
    if multichunk {
        0
    } else {
        places::CONTENT_LENGTH_BYTES
    }
}
