// Writes the contents that row 0 of the file on standard input names. Its stored input is the paper's example.
#![tactic(auto)]

use std::io;
use std::io::Write;

fn main(rt: HostRuntime) -> io::Result<()> {
    let mut input = [0u8; 65537];
    let got = listing_io::read_full(&mut rt.reader(), &mut input)?;
    let part = contents::contents(&input[..got], 0).unwrap_or(&[]);
    io::writer(&rt).write_all(part)
}
