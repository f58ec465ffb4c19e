// The mini-chunks: "Mini-chunks go on while the next 10 bytes are "MiniChunk="."
ghost use Rattle.std.specs.Prelude.{◌≡◌, true, ◌+◌, ◌-◌, ◌<◌, ◌≤◌, length, drop};
ghost use Rattle.metafile.specs.Bytes.{starts};
ghost use Rattle.metafile.specs.Multi.{mini_label, mini_data, mini_fault, minis_fault, minis_end};
ghost use Rattle.metafile.specs.Refusals.{fault_in};
ghost use Rattle.multi.specs.Part.{part_in, part_of, text_ids, first_mini, mini_rest};

use crate::{runs, types};
use lines::reader::VALUE;
use metafile::Refusal;
use table::{numbers, places};

// Whether a mini-chunk stands at a place.
pub fn is_mini(r: &[u8], at: usize) -> bool
    requires { at ≤ length r.now }
    ensures { result ≡ starts mini_label (drop at r.now) }
{
    lines::begins_mini(&r[at..])
}

// "Where the first must stand, fewer than 10 bytes left are 4, other bytes 8."
pub fn first_fault(r: &[u8], at: usize) -> Result<(), Refusal>
    requires { at ≤ length r.now }
    ensures { fault_in result ≡ first_mini (drop at r.now) }
{
    if r.len() - at < places::MINI_ID {
        return Err(Refusal::Short);
    }
    if is_mini(r, at) {
        Ok(())
    } else {
        Err(Refusal::ShortId)
    }
}

// The length of a mini-chunk's data, an I12 as a header length is, and the data.
fn data_fault(r: &[u8], at: usize) -> Result<(), Refusal>
    requires { at ≤ length r.now }
    ensures { fault_in result ≡ mini_rest (drop at r.now) }
{
    let behind = lines::read_field(r, at, numbers::MULTI_HEADER_LENGTH, VALUE)?;
    runs::free_fault(r, behind, runs::length_at(r, at))
}

// The mini-chunk at a place, its label there; its short ID is an A10 as a type's is, one of those declared; what
// is declared is a text, so that only the text of another is judged.
fn mini_fault(r: &[u8], at: usize, ids: &[[u8; 10]]) -> Result<(), Refusal>
    requires at_in_bounds { at ≤ length r.now }
    requires r_value { starts mini_label (drop at r.now) ≡ true }
    requires text_ids { text_ids ids.now }
    ensures { fault_in result ≡ mini_fault ids.now (drop at r.now) }
{
    if r.len() - at < places::MINI_LENGTH {
        return Err(Refusal::Short);
    }
    if types::is_kept(&r[at + places::MINI_ID..at + places::MINI_LENGTH], ids) {
        return data_fault(r, at + places::MINI_LENGTH);
    }
    lines::read_field(r, at + places::MINI_ID, numbers::SHORT_ID, VALUE)?;
    Err(Refusal::ShortId)
}

// The bytes of a mini-chunk that is whole.
pub fn mini_bytes(r: &[u8], at: usize) -> usize
    requires { at + (32 + mini_data (drop at r.now)) ≤ length r.now }
    ensures { result ≡ 32 + mini_data (drop at r.now) }
{
    places::MINI_DATA + runs::length_at(r, at + places::MINI_LENGTH)
}

// The mini-chunks from a place on, and their end.
pub fn minis_part(r: &[u8], start: usize, ids: &[[u8; 10]]) -> Result<usize, Refusal>
    requires start_in_bounds { start ≤ length r.now }
    requires text_ids { text_ids ids.now }
    ensures { part_in result ≡ part_of (minis_fault ids.now 0 (drop start r.now)) (start + minis_end 0 (drop start r.now)) }
{
    let mut at = start;
    while is_mini(r, at) {
        mini_fault(r, at, ids)?;
        at += mini_bytes(r, at);
    }
    Ok(at)
}
