// "The desk's slip": prints the listing of the file on standard input. Its stored input is the paper's example.
#![tactic(auto)]

use std::io;

fn main(rt: HostRuntime) -> io::Result<()> {
    listing_io::run(&rt)
}
