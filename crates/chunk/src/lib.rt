// One chunk, read from its own place in the file ("Chunk" and "Reading" of the scope paper): its first fault, or where
// its parts stand, and the row of a whole chunk. Each stage is a function whose contract equates its answer with the
// stage of the same name in the crate metafile (specs/Chunk); specs/Layout has the answers themselves.
//     parts      the layout of a chunk
//     counts     counts at their places
//     header     the header: lines, lengths, dependencies, specific data
//     contents   the contents, those of a MultiChunk by the crate multi
//     closing    mark, integrity data, mark; the test of their sum
//     rows       serial number, offset, ending and row of a whole chunk
// It rests on lines for the runs over the table of lines, on fields for values, on search and on sums.
#![tactic(auto)]

mod closing;
mod contents;
mod counts;
mod header;
mod parts;
mod rows;

ghost use Rattle.std.specs.Prelude.{◌≡◌};
ghost use Rattle.metafile.specs.Chunk.{is_multi, header_bytes, chunk_fault};
ghost use Rattle.chunk.specs.Layout.{layout_in, parts_of, layout_of};

pub use closing::{closing_fault, sum_good};
pub use header::{dependencies, is_multi_name};
use metafile::Refusal;
pub use parts::Layout;
pub use rows::{chunk_serial, row};
use table::places;

// The parts of the chunk that begins at s, or its first fault.
fn read_parts(s: &[u8], llc: bool, mark: &[u8]) -> Result<Layout, Refusal>
    ensures { layout_in result ≡ layout_of llc mark.now s.now }
{
    let head = header::head(s)?;
    let header = head.bytes;
    let multichunk = header::is_multi(s);
    let bytes = contents::contents_part(&s[header..], multichunk, llc, mark)?;
    let contents = header + contents::contents_from(multichunk);
    let at = contents + bytes;
    closing::closing_fault(s, at, mark)?;
    let end = at + mark.len() + places::INTEGRITY_BYTES + mark.len();
    Ok(Layout {
        number: 0,
        header,
        contents,
        bytes,
        end,
        dependencies: head.dependencies,
        multichunk,
    })
}

// The layout of the chunk that begins at s.
pub fn layout(s: &[u8], llc: bool, mark: &[u8]) -> Layout
    ensures { result ≡ layout_of llc mark.now s.now }
{
    match read_parts(s, llc, mark) {
        Ok(l) => l,
        Err(refusal) => Layout {
            number: refusal.number(),
            header: 0,
            contents: 0,
            bytes: 0,
            end: 0,
            dependencies: 0,
            multichunk: false,
        },
    }
}

// Where the parts of a chunk known to be whole stand, by its header's bytes and its sort.
// clause: llc and mark as fields of one struct make parts_of slower, 1.03 times over plain chunks
fn known_parts(s: &[u8], header: usize, multichunk: bool, llc: bool, mark: &[u8]) -> Layout
    requires s_value { chunk_fault llc mark.now s.now ≡ 0 }
    requires header_value { (header ≡ header_bytes s.now) × (multichunk ≡ is_multi s.now) }
    ensures { result ≡ parts_of mark.now s.now }
{
    let bytes = contents::whole_bytes(&s[header..], multichunk, llc, mark);
    let contents = header + contents::contents_from(multichunk);
    let end = contents + bytes + mark.len() + places::INTEGRITY_BYTES + mark.len();
    Layout {
        number: 0,
        header,
        contents,
        bytes,
        end,
        dependencies: header::dependencies(s),
        multichunk,
    }
}

// A header without dependencies and specific data, which most chunks have.
const LEAST: usize = places::DEPENDENCIES;

// Where the parts of a chunk known to be whole stand: no label and no text is judged again. Behind the least header the
// content length stands at a constant place, so that it is fetched without waiting for the header's length.
pub fn parts_of(s: &[u8], llc: bool, mark: &[u8]) -> Layout
    requires { chunk_fault llc mark.now s.now ≡ 0 }
    ensures { result ≡ parts_of mark.now s.now }
{
    let header = header::header_bytes(s);
    if header::is_multi(s) {
        return known_parts(s, header, true, llc, mark);
    }
    if header == LEAST {
        return known_parts(s, LEAST, false, llc, mark);
    }
    known_parts(s, header, false, llc, mark)
}
