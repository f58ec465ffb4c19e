// The first wrong block: "tested for its sum with 27, its number with 28, then its use, a spare byte that isn't zero or a
// partial block with 29".
ghost use Rattle.std.specs.Prelude.{◌≡◌, ◌==◌, ◌≤◌, length};
ghost use Rattle.std.specs.List.{list_all};
ghost use Rattle.metafile.specs.Below.{fault_below};
ghost use Rattle.metafile.specs.Refusals.{fault_in};
ghost use Rattle.blocks.specs.Blocks.{use_right, block_fault, blocks_of, fault_of, unpack_fault};

use crate::numbers::{big_value, block_sum};
use crate::{BLOCK, DATA, SUM};
use metafile::Refusal;

// "All blocks but the last use 504", the last up to 504, and 0 only as the first.
fn use_right(last: bool, i: usize, used: usize) -> bool
    ensures { result ≡ use_right last i used }
{
    (used <= DATA) & (last | (used == DATA)) & ((i == 0) | (0 < used))
}

fn all_zero(s: &[u8]) -> bool
    ensures { result ≡ list_all (λ x. x == 0) s.now }
{
    s.iter().all(|x| *x == 0)
}

// The fault of block i.
fn block_fault(b: &[u8], i: usize, last: bool) -> Result<(), Refusal>
    requires { length b.now ≤ 512 }
    ensures { fault_in result ≡ block_fault last i b.now }
{
    if b.len() < BLOCK {
        return Err(Refusal::BlockUse);
    }
    if usize::from(block_sum(&b[0..SUM])) != big_value(&b[SUM..BLOCK]) {
        return Err(Refusal::BlockSum);
    }
    if big_value(&b[0..4]) != i {
        return Err(Refusal::BlockNumber);
    }
    let used = big_value(&b[4..6]);
    if !use_right(last, i, used) {
        return Err(Refusal::BlockUse);
    }
    if !all_zero(&b[6 + used..SUM]) {
        return Err(Refusal::BlockUse);
    }
    Ok(())
}

// "The first wrong block decides."
fn blocks_fault(x: &[u8], count: usize) -> Result<(), Refusal>
    requires x_len_bound { length x.now ≤ 1073741824 }
    requires count_value { count ≡ blocks_of x.now }
    ensures { fault_in result ≡ fault_below count (fault_of x.now) }
{
    for i in 0..count {
        let from = BLOCK * i;
        let end = x.len().min(from + BLOCK);
        block_fault(&x[from..end], i, i + 1 == count)?;
    }
    Ok(())
}

// The refusal of a packed file.
pub fn unpack_fault(x: &[u8]) -> Result<(), Refusal>
    requires { length x.now ≤ 1073741824 }
    ensures { fault_in result ≡ unpack_fault x.now }
{
    if x.len() == 0 {
        return Err(Refusal::BlockUse);
    }
    blocks_fault(x, x.len().div_ceil(BLOCK))
}
