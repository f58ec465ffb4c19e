// The sum of bytes taken eight at a time. A word is eight bytes, the first lowest. Of the words of a block two sums are kept:
// all of the words, modulo 2^64, and their bytes at even places, in four lanes of 16 bits. The bytes at odd places are what
// the second leaves of the first. Words and lanes are defined in specs/Lanes; their laws are in proofs/Lanes.
ghost use Rattle.std.specs.Prelude.{◌≡◌, ℕ, ◌+◌, ◌%◌, ◌<◌, ◌≤◌, true, length};
ghost use Rattle.metafile.specs.Bytes.{total, sum};
ghost use Rattle.sums.specs.Lanes.{word_of, half_of, evens_of, Words};

use crate::byte_sum;

// How many bytes of each half are taken at once: 128 words of both, as many as the lanes have room for.
const BLOCK: usize = 512;

// Four bytes as a number. Two of these make a word: the compiler then loads each word at once.
pub fn half_word(b: &[u8]) -> u64
    requires { length b.now ≡ 4 }
    ensures { (result ≡ half_of b.now) × (result < 4294967296) }
{
    u64::from(u32::from_le_bytes([b[0], b[1], b[2], b[3]]))
}

fn word(b: &[u8]) -> u64
    requires { length b.now ≡ 8 }
    ensures { (result ≡ word_of b.now) × Words 1 result (evens_of result) (total b.now) }
{
    half_word(&b[0..4]) + half_word(&b[4..8]) * 4294967296
}

// The bytes at even places, each where it stands: one `and` with 0x00ff00ff00ff00ff in the machine.
fn evens(w: u64) -> u64
    ensures { result ≡ evens_of w }
{
    w % 256
        + w / 65536 % 256 * 65536
        + w / 4294967296 % 256 * 4294967296
        + w / 281474976710656 % 256 * 281474976710656
}

// The sum of the bytes of at most 128 words, from the sum `all` of the words and the sum `even` of their even bytes: even
// and odd bytes side by side in four lanes, at most 128 * 510 = 65,280 each, then the lanes.
fn folded(all: u64, even: u64) -> u8
    requires { (s : ℕ) × Words 128 all even s }
    ensures { (s : ℕ) → Words 128 all even s → result ≡ s % 256 }
{
    let odd = all.wrapping_sub(even) / 256;
    let both = even + odd;
    ((both % 65536 + both / 65536 % 65536 + both / 4294967296 % 65536 + both / 281474976710656)
        % 256) as u8
}

// The sum of the bytes of s and q, whole words, as many of each, at most 128 in all.
fn block_sum(s: &[u8], q: &[u8]) -> u8
    requires { (length s.now % 8 ≡ 0) × (length s.now ≤ 512) × (length q.now ≡ length s.now) }
    ensures { result ≡ (total s.now + total q.now) % 256 }
{
    let mut all: u64 = 0;
    let mut even: u64 = 0;
    for i in 0..s.len() / 8 {
        let at = 8 * i;
        let w = word(&s[at..at + 8]);
        let v = word(&q[at..at + 8]);
        all = all.wrapping_add(w).wrapping_add(v);
        even = even + evens(w) + evens(v);
    }
    folded(all, even)
}

// The sum of one word's bytes, or of none.
fn single_sum(s: &[u8]) -> u8
    requires { (length s.now % 8 ≡ 0) × (length s.now < 16) }
    ensures { result ≡ sum s.now }
{
    if s.len() < 8 {
        return 0;
    }
    let w = word(s);
    folded(w, evens(w))
}

// The sum of a run of bytes, modulo 256: added eight bytes at a time from one word, the last ones, seven at most, singly.
// The words are taken from two halves of the run in turns, 64 of each a block, so that memory is read at two places at once;
// a word more is left where their number is odd.
pub fn word_sum(s: &[u8]) -> u8
    ensures { result ≡ sum s.now }
{
    let half = s.len() / 16 * 8;
    let mut acc: u8 = 0;
    for i in 0..half.div_ceil(BLOCK) {
        let at = BLOCK * i;
        let end = half.min(at + BLOCK);
        acc = acc.wrapping_add(block_sum(&s[at..end], &s[half + at..half + end]));
    }
    let pairs = half * 2;
    let words = s.len() / 8 * 8;
    acc.wrapping_add(single_sum(&s[pairs..words]))
        .wrapping_add(byte_sum(&s[words..]))
}

// The two sums are equal over every part of any bytes.
pub fn sums_agree(s: &[u8], from: usize, end: usize) -> bool
    ensures { result ≡ true }
{
    if from > end {
        return true;
    }
    if end > s.len() {
        return true;
    }
    let part = &s[from..end];
    byte_sum(part) == word_sum(part)
}
