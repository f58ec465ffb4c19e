// append: a chunk added to a stored file, in a longer lent buffer. "Three writes, each on disk before the next: header
// with content length line; data; closing. The answer is the three ends." Its contract is one equation with metafile's
// Append, refusals included: then every buffer is untouched. The old file is read once, by walk's survey, which the tests
// and the copies from parents go by. It rests on walk, on lines for the lines that are judged and written, on writer for
// their values, for 13 and for the lines of parents, on search for the mark.
//     tests    "Append tests 11, 12, 6, 17, 13, 9, 15, 16, 18"
//     write    the three writes
#![tactic(auto)]

mod tests;
mod write;

ghost use Rattle.std.specs.Prelude.{◌≡◌};
ghost use Rattle.metafile.specs.Answers.{outcome, append_answer};
ghost use Rattle.metafile.specs.Append.{append};
ghost use Rattle.append.specs.Given.{given_of};

use metafile::{Description, Ends, Refusal};

// What append is given beside the buffer and the file's length in it.
#[derive(Clone, Copy)]
struct Given<'a> {
    description: Description,
    parents: &'a [usize],
    specific: &'a [u8],
    contents: &'a [u8],
    is_open: bool,
}

pub fn append(
    buffer: &mut [u8],
    length: usize,
    description: Description,
    parents: &[usize],
    specific: &[u8],
    contents: &[u8],
    open: bool,
) -> Result<Ends, Refusal>
    ensures { outcome (append_answer result) buffer.new
        ≡ append buffer.old length (given_of description parents.now specific.now contents.now «open») }
{
    let given = Given {
        description,
        parents,
        specific,
        contents,
        is_open: open,
    };
    if given.over_limit(buffer, length) {
        return Err(Refusal::OverLimit);
    }
    let survey = walk::survey(&buffer[..length], description.serial, parents);
    given.refusal(buffer, length, survey)?;
    Ok(given.put_chunk(buffer, length, survey))
}
