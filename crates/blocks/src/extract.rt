// The file that blocks carry which are all right: each is whole, and all but the last use 504.
ghost use Rattle.std.specs.Prelude.{◌≡◌, ◌≤◌, length};
ghost use Rattle.metafile.specs.Answers.{placed};
ghost use Rattle.blocks.specs.Blocks.{unpack_fault, unpacked};

use crate::numbers::big_value;
use crate::{BLOCK, DATA};

// The length of the file, by the use of the last block.
pub fn unpacked_length(x: &[u8]) -> usize
    requires x_len_bound { length x.now ≤ 1073741824 }
    requires x_value { unpack_fault x.now ≡ 0 }
    ensures { result ≡ length (unpacked x.now) }
{
    let last = x.len() - BLOCK;
    last / BLOCK * DATA + big_value(&x[last + 4..last + 6])
}

// The file, at the buffer's start.
pub fn put_file(buffer: &mut [u8], x: &[u8])
    requires x_len_bound { length x.now ≤ 1073741824 }
    requires x_value { unpack_fault x.now ≡ 0 }
    requires x_in_bounds { length (unpacked x.now) ≤ length buffer.old }
    ensures { buffer.new ≡ placed 0 (unpacked x.now) buffer.old }
{
    let mut p: usize = 0;
    for i in 0..x.len() / BLOCK {
        let from = BLOCK * i + 6;
        let used = big_value(&x[from - 2..from]);
        p = lines::put_bytes(buffer, p, &x[from..from + used]);
    }
}
