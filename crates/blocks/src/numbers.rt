// "numbers big-endian", and "the sum of the first 510 bytes modulo 65,536".
ghost use Rattle.std.specs.Prelude.{◌≡◌, ◌+◌, ◌≤◌, length};
ghost use Rattle.text.specs.Put.{Put};
ghost use Rattle.blocks.specs.Blocks.{big_endian, big_value, block_sum};

// A number in n bytes, the last one first.
// by hand: `to_be_bytes` has the size of its type; here numbers are put in 4 bytes and in 2
pub fn put_big(buffer: &mut [u8], at: usize, n: usize, x: usize) -> usize
    requires { at + n ≤ length buffer.old }
    ensures { Put (big_endian n x) at buffer.old result buffer.new }
{
    let mut rest = x;
    for k in (0..n).rev() {
        buffer[at + k] = (rest % 256) as u8;
        rest /= 256;
    }
    at + n
}

// The number that up to four bytes stand for.
// by hand: `from_be_bytes` has the size of its type; here 4 bytes are read and 2
pub fn big_value(s: &[u8]) -> usize
    requires { length s.now ≤ 4 }
    ensures { result ≡ big_value s.now }
{
    let mut value: usize = 0;
    for b in s {
        value = value * 256 + usize::from(*b);
    }
    value
}

// The sum of bytes, modulo 65,536.
pub fn block_sum(s: &[u8]) -> u16
    ensures { result ≡ block_sum s.now }
{
    let mut acc: u16 = 0;
    for b in s {
        acc = acc.wrapping_add(u16::from(*b));
    }
    acc
}
