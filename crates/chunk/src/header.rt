// The header of a chunk, stage by stage: the lines up to the dependency count; the two lengths, tested before the LF that
// follows; the dependencies; the specific data.
ghost use Rattle.std.specs.Prelude.{◌≡◌, ◌∷◌, ◌≤◌, length, drop};
ghost use Rattle.metafile.specs.Bytes.{same};
ghost use Rattle.metafile.specs.Lines.{lf, lines_of, run};
ghost use Rattle.table.specs.Codes.{lines_from};
ghost use Rattle.lines.specs.Parts.{Takes};
ghost use Rattle.metafile.specs.Chunk.{head, dependencies, multi_name, is_multi, lengths_fault, dependency_fields, header_bytes};
ghost use Rattle.metafile.specs.Refusals.{fault_in};
ghost use Rattle.chunk.specs.Layout.{Numbers, HeadOf};

use crate::counts::count_at;
use crate::parts::Head;
use lines::Refused;
use lines::reader::END;
use metafile::Refusal;
use table::{names, numbers, places};

// ---- what the header says

// Whether the 256 bytes of a sub-format name a MultiChunk: the name, padded with spaces.
pub fn is_multi_name(id: &[u8]) -> bool
    requires { length id.now ≡ 256 }
    ensures { result ≡ same id.now multi_name }
{
    names::is_padded(id, b"ADS\\SYS\\MultiChunk")
}

pub fn is_multi(s: &[u8]) -> bool
    requires { 567 ≤ length s.now }
    ensures { result ≡ is_multi s.now }
{
    is_multi_name(&s[places::SUB_FORMAT..places::SUB_FORMAT_END])
}

// The dependency count.
pub fn dependencies(s: &[u8]) -> usize
    requires { 567 ≤ length s.now }
    ensures { result ≡ dependencies s.now }
{
    count_at(s, places::DEPENDENCY_COUNT, places::COUNT)
}

// The header's bytes: its length counts from just after its last digit.
pub fn header_bytes(s: &[u8]) -> usize
    requires lines { run head s.now ≡ 0 }
    requires lengths { lengths_fault s.now ≡ 0 }
    ensures { result ≡ header_bytes s.now }
{
    count_at(s, places::HEADER_LENGTH, places::LENGTH) + places::HEADER_LENGTH_END
}

// ---- the stages

// The lines up to the digits of the dependency count.
fn head_fault(s: &[u8]) -> Result<(), Refusal>
    ensures { fault_in result ≡ run head s.now }
{
    lines::head_lines_fault(s)?;
    lines::dependency_count_fault(s)
}

// The dependency length, then the header length; a MultiChunk has no specific data. The numbers are those of the header: the
// dependency count and the two lengths.
fn numbers_fault(s: &[u8], n: usize, announced: usize, header: usize) -> Result<(), Refusal>
    requires lines { run head s.now ≡ 0 }
    requires numbers { Numbers s.now n announced header }
    ensures { fault_in result ≡ lengths_fault s.now }
{
    if announced != places::LEAST_DEPENDENCY_LENGTH + places::DEPENDENCY_BYTES * n {
        return Err(Refusal::Length);
    }
    let least = places::LEAST_HEADER_LENGTH + places::DEPENDENCY_BYTES * n;
    if header < least {
        return Err(Refusal::Length);
    }
    if header == least {
        return Ok(());
    }
    if is_multi(s) {
        return Err(Refusal::Length);
    }
    Ok(())
}

// A dependency: its serial number and its sub-format.
fn dependency(s: &[u8], at: usize) -> Result<usize, Refused>
    requires { at ≤ length s.now }
    ensures { Takes (lines_of (lines_from 9 2)) at s.now result }
{
    match lines::read_line(s, at, numbers::DEPENDENCY_SERIAL) {
        Ok(serial) => lines::read_line(s, serial, numbers::DEPENDENCY_SUB_FORMAT),
        Err(serial) => Err(Refused {
            behind: at + places::DEPENDENCY_BYTES,
            ..serial
        }),
    }
}

// The LF after the dependency count, and n dependencies, two lines each.
fn dependencies_fault(s: &[u8], n: usize) -> Result<(), Refusal>
    requires { 567 ≤ length s.now }
    ensures { fault_in result ≡ run (lf ∷ dependency_fields n) (drop 567 s.now) }
{
    let mut at = lines::read_field(
        s,
        places::DEPENDENCY_COUNT_END,
        numbers::DEPENDENCY_COUNT,
        END,
    )?;
    for _ in 0..n {
        at = dependency(s, at)?;
    }
    Ok(())
}

// The first fault of the header, or what it says. Each number is valued once.
pub fn head(s: &[u8]) -> Result<Head, Refusal>
    ensures { HeadOf result s.now }
{
    head_fault(s)?;
    let n = dependencies(s);
    let announced = count_at(s, places::DEPENDENCY_LENGTH, places::LENGTH);
    let header = count_at(s, places::HEADER_LENGTH, places::LENGTH);
    numbers_fault(s, n, announced, header)?;
    dependencies_fault(s, n)?;
    let bytes = header + places::HEADER_LENGTH_END;
    if s.len() < bytes {
        return Err(Refusal::Short);
    }
    Ok(Head {
        bytes,
        dependencies: n,
    })
}
