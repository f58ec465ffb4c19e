// Text put into a buffer: words and numbers without leading zeros, each with the byte behind it, a space or an LF. A function
// that puts bytes at a place answers the place behind them, so that a line is put word by word, and asks for the room that
// they take.
//     decimal_length   the digits of a number, at most 20
//     put_decimal      a number
//     put_word         a word
// The contracts cite decimal of the crate metafile (specs/Listing) by Put of specs/Put; the laws are in proofs/Puts (bytes
// put behind bytes) and proofs/Decimals (leading zeros).
#![tactic(auto)]

ghost use Rattle.std.specs.Prelude.{◌≡◌, [], ◌∷◌, ◌++◌, ◌+◌, ◌≤◌, length};
ghost use Rattle.metafile.specs.Listing.{decimal};
ghost use Rattle.text.specs.Put.{Put};

// How many digits a number has without leading zeros.
pub fn decimal_length(x: usize) -> usize
    ensures { result ≡ length (decimal x) }
{
    let mut n: usize = 1;
    let mut rest = x;
    // while: what is left of the number ends the loop, not the count; as a `for n in 1..20` it needs a `return` and a 20
    while 10 <= rest {
        rest /= 10;
        n += 1;
    }
    n
}

// A number without leading zeros, and the byte behind it.
pub fn put_decimal(buffer: &mut [u8], at: usize, x: usize, behind: u8) -> usize
    requires { at + length (decimal x) + 1 ≤ length buffer.old }
    ensures { Put (decimal x ++ behind ∷ []) at buffer.old result buffer.new }
{
    let digits_end = lines::put_number(buffer, at, decimal_length(x), x as u64);
    buffer[digits_end] = behind;
    digits_end + 1
}

// A word, and the byte behind it.
pub fn put_word(buffer: &mut [u8], at: usize, word: &[u8], behind: u8) -> usize
    requires { at + length word.now + 1 ≤ length buffer.old }
    ensures { Put (word.now ++ behind ∷ []) at buffer.old result buffer.new × (result ≡ at + length word.now + 1) }
{
    let end = lines::put_bytes(buffer, at, word);
    buffer[end] = behind;
    end + 1
}
