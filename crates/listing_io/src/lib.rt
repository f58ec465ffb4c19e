// The listing program's input and output: standard input is read into a local array of one byte more than a file may
// have, the text is made by the crate listing_text, and written to standard output. Nothing is decided here.
#![tactic(auto)]

ghost use Rattle.std.specs.Prelude.{◌≡◌, ◌≤◌, length, IfOk};

use std::io;
use std::io::{Read, Write};

// Reads until the buffer is full or the input ends, and answers how many bytes there are. An error is the reader's own, and the
// buffer is as long as before.
pub fn read_full<R: Read>(reader: &mut R, buffer: &mut [u8]) -> io::Result<usize>
    ensures within { IfOk result (λ n. n ≤ length buffer.new) }
    ensures kept { length buffer.new ≡ length buffer.old }
{
    let mut got = 0usize;
    // while: of std's methods, read_exact fails at a short input, and read_to_end needs the heap.
    while got < buffer.len() {
        let n = reader.read(&mut buffer[got..])?;
        if n == 0 {
            break;
        }
        got += n;
    }
    Ok(got)
}

pub fn run<R: Input + Print>(rt: &R) -> io::Result<()> {
    let mut input = [0u8; 65537];
    let got = read_full(&mut rt.reader(), &mut input)?;
    let mut text = [0u8; 10240];
    let n = listing_text::listing(&input[..got], &mut text).unwrap_or(0);
    io::writer(rt).write_all(&text[..n])
}
