// Runs of bytes at a place: a number in 12 digits, bytes of any value.
ghost use Rattle.std.specs.Prelude.{◌≡◌, ◌+◌, ◌≤◌, length, drop};
ghost use Rattle.metafile.specs.Bytes.{part};
ghost use Rattle.metafile.specs.Fields.{count_value};
ghost use Rattle.metafile.specs.Lines.{free, value, fault};
ghost use Rattle.metafile.specs.Refusals.{fault_in};

use metafile::Refusal;
use table::places;

// The number in the 12 digits at a place.
pub fn length_at(r: &[u8], at: usize) -> usize
    requires { at + 12 ≤ length r.now }
    ensures { result ≡ count_value (part at 12 r.now) }
{
    fields::count_value(&r[at..at + places::LENGTH]) as usize
}

// A run of n bytes of any value.
pub fn free_fault(r: &[u8], at: usize, n: usize) -> Result<(), Refusal>
    requires { at ≤ length r.now }
    ensures { fault_in result ≡ fault (value (free n)) (drop at r.now) }
{
    if r.len() - at < n {
        return Err(Refusal::Short);
    }
    Ok(())
}
