// The call contents: "hands back the part of the file that the row names, uncopied; refused, an empty part and the
// number". The part is found once, by its place and bytes; contents hands it back as a part of the lent slice. The row is
// that of a reading with rows enough, which the crate walk goes through without a table; no sum is taken. The contract
// cites contents of the crate metafile (specs/Calls), and specs/Outcome; it rests on the laws of the row of a number in
// walk (proofs/Named).
#![tactic(auto)]

ghost use Rattle.std.specs.Prelude.{[], ◌≡◌, MatchResult};
ghost use Rattle.metafile.specs.Refusals.{number_of};
ghost use Rattle.metafile.specs.Calls.{contents};
ghost use Rattle.contents.specs.Outcome.{contents_outcome, part_in, part_of};

use metafile::Refusal;

// A part of the file, by its place and its bytes, as C is handed it; beside a number that is not 0 both are 0.
// number: the C interface hands the refusal's number beside the part
#[repr(C)]
#[derive(Clone, Copy)]
pub struct Part {
    pub place: usize,
    pub bytes: usize,
    pub number: u8,
}

// A part of the file, by its place and its bytes.
#[derive(Clone, Copy)]
struct Place {
    place: usize,
    bytes: usize,
}

// The part of the file that a row names. Tests 11, then 13.
fn place_of(file: &[u8], row: usize) -> Result<Place, Refusal>
    ensures { part_in result ≡ part_of file.now row }
{
    let mut index = [0u32; walk::INDEX];
    let own = walk::row_of(file, row, row, &mut index)?;
    Ok(Place {
        place: own.at + own.layout.contents,
        bytes: own.layout.bytes,
    })
}

pub fn part_of(file: &[u8], row: usize) -> Part
    ensures { result ≡ part_of file.now row }
{
    match place_of(file, row) {
        Ok(part) => Part {
            place: part.place,
            bytes: part.bytes,
            number: 0,
        },
        Err(refusal) => Part {
            place: 0,
            bytes: 0,
            number: refusal.number(),
        },
    }
}

// "refused, an empty part and the number"
pub fn contents<'a>(file: &'a [u8], row: usize) -> Result<&'a [u8], Refusal>
    ensures { MatchResult result (λ part. contents_outcome part.now 0 ≡ contents file.now row) (λ r. contents_outcome [] (number_of r) ≡ contents file.now row) }
{
    let part = place_of(file, row)?;
    Ok(&file[part.place..part.place + part.bytes])
}
