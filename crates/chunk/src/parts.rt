// The layout of a chunk: its first fault, or where its parts stand, counted from the chunk's first byte. And what its header
// says.
#[repr(C)]
#[derive(Clone, Copy)]
pub struct Layout {
    // the first fault; where it isn't 0, all else is 0 and false
    pub number: u8,
    // header bytes
    pub header: usize,
    // contents place
    pub contents: usize,
    // contents bytes
    pub bytes: usize,
    pub end: usize,
    // dependency count
    pub dependencies: usize,
    // MultiChunk or not
    pub multichunk: bool,
}

#[derive(Clone, Copy)]
pub struct Head {
    // header bytes
    pub bytes: usize,
    // dependency count
    pub dependencies: usize,
}
