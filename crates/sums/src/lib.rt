// Sums of bytes: "added byte by byte, modulo 256", the check of a serial number and the sum of a chunk.
// The contracts cite sum of the crate metafile (specs/Bytes); the laws of the sum are in proofs/Laws.
//     byte_sum   the reference, byte by byte; a serial number's check
//     words      the same sum, eight bytes at a time: chunks and the header
#![tactic(auto)]

ghost use Rattle.std.specs.Prelude.{◌≡◌};
ghost use Rattle.metafile.specs.Bytes.{sum};

mod words;

pub use words::{half_word, sums_agree, word_sum};

// The sum of a run of bytes, added byte by byte, modulo 256.
pub fn byte_sum(s: &[u8]) -> u8
    ensures { result ≡ sum s.now }
{
    let mut acc: u8 = 0;
    for i in 0..s.len() {
        acc = acc.wrapping_add(s[i]);
    }
    acc
}
