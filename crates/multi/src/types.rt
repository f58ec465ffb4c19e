// The types of a MultiChunk: "for each type SubType_Header_Length= I12, SubFormat_ID=, SubFormat_Short_ID= A10, then the
// four time and event lines and specific data (length 484 + s)". The short IDs so far are kept, so that a file of many mini-chunks does not go through the type headers for each of them.
ghost use Rattle.std.specs.Prelude.{◌≡◌, [], ◌+◌, ◌-◌, ◌≤◌, length, take, drop};
ghost use Rattle.metafile.specs.Bytes.{member};
ghost use Rattle.metafile.specs.Lines.{run};
ghost use Rattle.metafile.specs.Multi.{types_of, multi_length, type_bytes, type_fault, types_fault, types_bytes, type_ids};
ghost use Rattle.metafile.specs.Refusals.{fault_in};
ghost use Rattle.multi.specs.Part.{part_in, part_of, type_names, type_rest, type_length_fault};

use crate::runs;
use lines::reader::END;
use metafile::Refusal;
use table::{numbers, places};

pub fn type_count(r: &[u8]) -> usize
    requires { 64 ≤ length r.now }
    ensures { result ≡ types_of r.now }
{
    fields::count_value(&r[places::TYPE_COUNT..places::TYPE_COUNT_END]) as usize
}

// Whether a short ID is among those kept.
pub fn is_kept(id: &[u8], ids: &[[u8; 10]]) -> bool
    ensures { result ≡ member id.now ids.now }
{
    ids.iter().any(|kept| search::same_bytes(id, kept))
}

// SubType_Header_Length, its own test, and at the last type that of Multi_Chunk_Header_Length.
fn type_length_fault(r: &[u8], at: usize, last: bool, announced: usize) -> Result<(), Refusal>
    requires { (65 ≤ at) × (at ≤ length r.now) }
    ensures { fault_in result ≡ type_length_fault last announced (at - 65) (drop at r.now) }
{
    lines::read_opened(r, at, numbers::SUB_TYPE_LENGTH)?;
    let long = runs::length_at(r, at + places::TYPE_LENGTH);
    if long < places::LEAST_TYPE_LENGTH {
        return Err(Refusal::Length);
    }
    let whole = places::LEAST_MULTI_LENGTH + (at - places::TYPES) + places::TYPE_LENGTH_END + long;
    if last && announced != whole {
        return Err(Refusal::Length);
    }
    Ok(())
}

// From the LF after SubType_Header_Length to the short ID.
fn type_names_fault(r: &[u8], at: usize) -> Result<(), Refusal>
    requires { at ≤ length r.now }
    ensures { fault_in result ≡ run type_names (drop at r.now) }
{
    let end = lines::read_field(r, at, numbers::SUB_TYPE_LENGTH, END)?;
    let name = lines::read_line(r, end, numbers::SUB_FORMAT_ID)?;
    lines::read_opened(r, name, numbers::SHORT_ID)?;
    Ok(())
}

// From the LF after the short ID to the end of the specific data.
fn type_rest_fault(r: &[u8], at: usize, specific: usize) -> Result<(), Refusal>
    requires { at ≤ length r.now }
    ensures { fault_in result ≡ run (type_rest specific) (drop at r.now) }
{
    let end = lines::read_field(r, at, numbers::SHORT_ID, END)?;
    lines::lines_fault(r, end, numbers::TIME_SYNCH_TYPE, 4)?;
    runs::free_fault(r, end + places::TIME_AND_EVENT_BYTES, specific)
}

// The type at a place: whether it is the last, the length to meet there, and the short IDs before it.
fn type_fault(
    r: &[u8],
    at: usize,
    last: bool,
    announced: usize,
    ids: &[[u8; 10]],
) -> Result<(), Refusal>
    requires { (65 ≤ at) × (at ≤ length r.now) }
    ensures { fault_in result ≡ type_fault last announced (at - 65) ids.now (drop at r.now) }
{
    type_length_fault(r, at, last, announced)?;
    type_names_fault(r, at + places::TYPE_LENGTH_END)?;
    if is_kept(&r[at + places::SHORT_ID..at + places::SHORT_ID_END], ids) {
        return Err(Refusal::ShortId);
    }
    type_rest_fault(
        r,
        at + places::SHORT_ID_END,
        runs::length_at(r, at + places::TYPE_LENGTH) - places::LEAST_TYPE_LENGTH,
    )
}

// The bytes of a type that is whole.
pub fn type_bytes(r: &[u8], at: usize) -> usize
    requires { at + type_bytes (drop at r.now) ≤ length r.now }
    ensures { result ≡ type_bytes (drop at r.now) }
{
    let long = runs::length_at(r, at + places::TYPE_LENGTH);
    places::TYPE_SPECIFIC + long.saturating_sub(places::LEAST_TYPE_LENGTH)
}

// The n types, and the place after them; their short IDs are kept.
pub fn types_part(r: &[u8], n: usize, ids: &mut [[u8; 10]]) -> Result<usize, Refusal>
    requires r_in_bounds { 65 ≤ length r.now }
    requires ids_len { n ≤ length ids.old }
    ensures value { part_in result ≡ part_of (types_fault n (multi_length r.now) 0 [] (drop 65 r.now)) (65 + types_bytes n (drop 65 r.now)) }
    ensures ids_after { fault_in result ≡ 0 → take n ids.new ≡ type_ids n (drop 65 r.now) }
{
    let announced = runs::length_at(r, places::MULTI_HEADER_LENGTH);
    let mut at: usize = places::TYPES;
    for i in 0..n {
        type_fault(r, at, i + 1 == n, announced, &ids[..i])?;
        ids[i].copy_from_slice(&r[at + places::SHORT_ID..at + places::SHORT_ID_END]);
        at += type_bytes(r, at);
    }
    Ok(at)
}
