// The contents of a MultiChunk, from their first line on: "Multi_Chunk_Header_Length= I12; MiniChunk_Type_Count= I4 from
// 1 to 64; for each type .., then mini-chunks". multi_part judges them and says how many bytes they take; the other
// public functions serve gather, on contents that were judged.
//     types    the type headers, and the short IDs that they declare
//     minis    the mini-chunks
//     gather   the data under one short ID
//     runs     runs of bytes at a place
// The contracts cite the definitions of the crate metafile (specs/Multi); specs/Part has what is handed back. Lines are
// judged by the crate lines, numbers valued by fields, bytes compared by search.
#![tactic(auto)]

mod gather;
mod minis;
mod runs;
mod types;

ghost use Rattle.std.specs.Prelude.{◌≡◌};
ghost use Rattle.metafile.specs.Refusals.{fault_in};
ghost use Rattle.multi.specs.Part.{part_in, multi_part, head_fault};

pub use gather::{is_declared, joined_length, put_joined};
use lines::reader::END;
use metafile::Refusal;
use table::{numbers, places};

// Up to the LF after the type count.
fn head_fault(r: &[u8]) -> Result<(), Refusal>
    ensures { fault_in result ≡ head_fault r.now }
{
    let first = lines::read_line(r, 0, numbers::MULTI_HEADER_LENGTH)?;
    let second = lines::read_opened(r, first, numbers::TYPE_COUNT)?;
    let n = types::type_count(r);
    if n < 1 {
        return Err(Refusal::Length);
    }
    if n > 64 {
        return Err(Refusal::Length);
    }
    lines::read_field(r, second, numbers::TYPE_COUNT, END)?;
    Ok(())
}

// How many bytes the contents take that r begins with, or their first fault.
pub fn multi_part(r: &[u8]) -> Result<usize, Refusal>
    ensures { part_in result ≡ multi_part r.now }
{
    head_fault(r)?;
    let n = types::type_count(r);
    let mut ids = [[0u8; places::ID]; 64];
    let at = types::types_part(r, n, &mut ids)?;
    minis::first_fault(r, at)?;
    minis::minis_part(r, at, &ids[..n])
}
