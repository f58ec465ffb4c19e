// The mark of a file.
ghost use Rattle.std.specs.Prelude.{◌≡◌, ◌+◌, ◌≤◌, length, take};
ghost use Rattle.metafile.specs.Bytes.{all, non_zero, part};

use table::places::MARK;

// 15: no byte of the mark is zero.
pub fn is_clear(mark: &[u8]) -> bool
    ensures { result ≡ all non_zero mark.now }
{
    mark.iter().all(|b| *b != 0)
}

// The file's mark, copied out of it.
// arrays: no heap, so an array of the most bytes that a mark may have; its n bytes are copied, since the buffer is written to
pub fn mark_of(file: &[u8], n: usize) -> [u8; 999]
    requires { (n ≤ 999) × (65 + n ≤ length file.now) }
    ensures { take n result ≡ part 65 n file.now }
{
    let mut mark = [0u8; 999];
    mark[..n].copy_from_slice(&file[MARK..MARK + n]);
    mark
}
