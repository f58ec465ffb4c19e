// Blocks put into a buffer, one behind the other.
ghost use Rattle.std.specs.Prelude.{◌≡◌, ◌+◌, ◌*◌, ◌≤◌, length, replicate};
ghost use Rattle.metafile.specs.Answers.{placed};
ghost use Rattle.text.specs.Put.{Put};
ghost use Rattle.blocks.specs.Blocks.{block, block_count, packed};

use crate::DATA;
use crate::numbers::{block_sum, put_big};

// "All blocks but the last use 504"; no bytes are one block.
pub fn block_count(n: usize) -> usize
    requires { n ≤ 1073741824 }
    ensures { (result ≡ block_count n) × (result ≤ 2130441) }
{
    if n == 0 {
        return 1;
    }
    1 + (n - 1) / DATA
}

// "spare data bytes are zero"
fn put_zeros(buffer: &mut [u8], at: usize, n: usize) -> usize
    requires { at + n ≤ length buffer.old }
    ensures { Put (replicate n 0) at buffer.old result buffer.new }
{
    buffer[at..at + n].fill(0);
    at + n
}

// Number, use, data and spare bytes of block i, and the sum of them all.
fn put_block(buffer: &mut [u8], at: usize, i: usize, v: &[u8]) -> usize
    requires v_len_bound { length v.now ≤ 504 }
    requires at_in_bounds { at + 512 ≤ length buffer.old }
    ensures { Put (block i v.now) at buffer.old result buffer.new }
{
    let a = put_big(buffer, at, 4, i);
    let b = put_big(buffer, a, 2, v.len());
    let c = lines::put_bytes(buffer, b, v);
    let d = put_zeros(buffer, c, DATA - v.len());
    let sum = block_sum(&buffer[at..d]);
    put_big(buffer, d, 2, sum as usize)
}

// All blocks of a file, from the buffer's start on.
pub fn put_blocks(buffer: &mut [u8], file: &[u8], count: usize)
    requires file_len_bound { length file.now ≤ 1073741824 }
    requires count_value { count ≡ block_count (length file.now) }
    requires count_in_bounds { count * 512 ≤ length buffer.old }
    ensures { buffer.new ≡ placed 0 (packed file.now) buffer.old }
{
    let mut at: usize = 0;
    for i in 0..count {
        let from = DATA * i;
        let end = file.len().min(from + DATA);
        at = put_block(buffer, at, i, &file[from..end]);
    }
}
