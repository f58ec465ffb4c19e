// A file carried in blocks of 512 bytes (request U14): number, use, data and sum, so that a block that was lost is seen. Any
// bytes are taken; no metafile is judged. A packed file is gone through twice, since nothing may be written before its last
// block is judged.
//     numbers   big-endian numbers, and the sum of a block
//     write     blocks put into a buffer
//     judge     the first wrong block
//     extract   the data taken out of blocks that are all right
#![tactic(auto)]

ghost use Rattle.std.specs.Prelude.{◌≡◌};
ghost use Rattle.metafile.specs.Answers.{outcome, count_answer};
ghost use Rattle.blocks.specs.Blocks.{pack, unpack};

use metafile::{Refusal, over_limit};

mod extract;
mod judge;
mod numbers;
mod write;

// A block's bytes, the data bytes of one, and the place of the sum.
const BLOCK: usize = 512;

const DATA: usize = 504;

const SUM: usize = 510;

// Writes the blocks of a file at the start of the buffer: the length of the packed file. Tests 11, 18.
pub fn pack(file: &[u8], buffer: &mut [u8]) -> Result<usize, Refusal>
    ensures { outcome (count_answer result) buffer.new ≡ pack file.now buffer.old }
{
    if over_limit(&[file.len(), buffer.len()]) {
        return Err(Refusal::OverLimit);
    }
    let count = write::block_count(file.len());
    let packed = count * BLOCK;
    if buffer.len() < packed {
        return Err(Refusal::NoRoom);
    }
    write::put_blocks(buffer, file, count);
    Ok(packed)
}

// Writes the file that the blocks carry at the start of the buffer: its length. Tests 11, the blocks in order (27, 28, 29), 18.
pub fn unpack(blocks: &[u8], buffer: &mut [u8]) -> Result<usize, Refusal>
    ensures { outcome (count_answer result) buffer.new ≡ unpack blocks.now buffer.old }
{
    if over_limit(&[blocks.len(), buffer.len()]) {
        return Err(Refusal::OverLimit);
    }
    judge::unpack_fault(blocks)?;
    let length = extract::unpacked_length(blocks);
    if buffer.len() < length {
        return Err(Refusal::NoRoom);
    }
    extract::put_file(buffer, blocks);
    Ok(length)
}
