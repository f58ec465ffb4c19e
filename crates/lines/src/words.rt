// The listed words, three bytes each, and the label of a mini-chunk.
ghost use Rattle.std.specs.Prelude.{◌≡◌, ◌+◌, ◌≤◌, ◌<◌, length};
ghost use Rattle.metafile.specs.Bytes.{part, same, starts};
ghost use Rattle.metafile.specs.Multi.{mini_label};
ghost use Rattle.lines.specs.Words.{word_no, Three};

use table::places;

const WORDS: [u8; 30] = *b"LLCNULBINTXTGENSPEUTCALTSLVMAS";

// Their numbers.
pub const LLC: usize = 0;

pub const NUL: usize = 1;

pub const BIN: usize = 2;

pub const TXT: usize = 3;

pub const GEN: usize = 4;

pub const SPE: usize = 5;

pub const UTC: usize = 6;

pub const ALT: usize = 7;

pub const SLV: usize = 8;

pub const MAS: usize = 9;

// Three bytes as a number.
fn three(b: &[u8]) -> u32
    requires { length b.now ≡ 3 }
    ensures { Three b.now result }
{
    u32::from(b[0]) + u32::from(b[1]) * 256 + u32::from(b[2]) * 65536
}

// The same word: by their numbers, which the machine compares at once.
// by hand: == of the two slices takes 1.25 to 1.5 times as long
fn same_word(a: &[u8], b: &[u8]) -> bool
    requires { (length a.now ≡ 3) × (length b.now ≡ 3) }
    ensures { result ≡ same a.now b.now }
{
    three(a) == three(b)
}

// Word w stands at a place.
pub fn is_word(s: &[u8], at: usize, w: usize) -> bool
    requires { (at + 3 ≤ length s.now) × (w < 10) }
    ensures { result ≡ same (part at 3 s.now) (word_no w) }
{
    let words = WORDS;
    let from = w * places::WORD;
    same_word(&s[at..at + places::WORD], &words[from..from + places::WORD])
}

// The bytes begin "MiniChunk=".
pub fn begins_mini(s: &[u8]) -> bool
    ensures { result ≡ starts mini_label s.now }
{
    if s.len() < places::MINI_ID {
        return false;
    }
    search::same_bytes(&s[..places::MINI_ID], b"MiniChunk=")
}
