// The closing: mark, integrity data, mark; and the sum in it.
ghost use Rattle.std.specs.Prelude.{◌≡◌, ◌+◌, ◌≤◌, length, drop};
ghost use Rattle.metafile.specs.Lines.{run};
ghost use Rattle.metafile.specs.Refusals.{fault_in};
ghost use Rattle.metafile.specs.Closing.{closing, sum_good};

use crate::counts::count_at;
use metafile::Refusal;
use table::places;

// The first fault of the closing at the place `at`.
pub fn closing_fault(s: &[u8], at: usize, mark: &[u8]) -> Result<(), Refusal>
    requires { at ≤ length s.now }
    ensures { fault_in result ≡ run (closing mark.now) (drop at s.now) }
{
    let first = lines::read_fixed(s, at, mark)?;
    lines::integrity_fault(s, first)?;
    lines::read_fixed(s, first + places::INTEGRITY_BYTES, mark)?;
    Ok(())
}

// Whether the sum in the closing at the place `at` is that of the bytes before its digits.
pub fn sum_good(s: &[u8], at: usize, mark: &[u8]) -> bool
    requires { at + length mark.now + 254 ≤ length s.now }
    ensures { result ≡ sum_good at mark.now s.now }
{
    let digits = at + mark.len() + places::CHECKSUM;
    count_at(s, digits, places::SUM) == sums::word_sum(&s[..digits]) as usize
}
