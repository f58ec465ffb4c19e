// Whether a file is clean: for whoever appends to it, and for the callers of read.
ghost use Rattle.std.specs.Prelude.{◌≡◌};
ghost use Rattle.metafile.specs.Reading.{clean_at};

// A file of so many bytes that reads with this number and stop. No bytes aren't clean.
pub fn clean_at(length: usize, number: u8, stop: usize) -> bool
    ensures { result ≡ clean_at length number stop }
{
    (0 < length) & (number == 0) & (stop == length)
}
