// The call parent: "Parent of row k, dependency j, both from 0: the row with that serial and whether the sub-formats
// agree, or missing". The rows are those of a reading with rows enough, which the crate walk goes through without a
// table, once: the index of serial numbers up to row k serves the search behind it too. No chunk's sum is taken and
// nothing is written. The contract cites parent and parent_answer of the crate metafile (specs/Calls, Answers); it rests
// on the laws of the row of a number in walk (proofs/Named). Distances are those of the table.
#![tactic(auto)]

ghost use Rattle.std.specs.Prelude.{◌≡◌, ◌+◌, ◌≤◌, length};
ghost use Rattle.metafile.specs.Bytes.{part, same};
ghost use Rattle.metafile.specs.Answers.{parent_answer};
ghost use Rattle.metafile.specs.Calls.{parent};

use metafile::{ParentRow, Refusal};
use table::places;

// The serial number at a place of the file.
fn serial_at(file: &[u8], at: usize) -> [u8; 38]
    requires { at + 38 ≤ length file.now }
    ensures { result ≡ part at 38 file.now }
{
    fields::serial_from(&file[at..])
}

// Whether the sub-formats at two places of the file agree: all 256 bytes.
fn agree(file: &[u8], a: usize, b: usize) -> bool
    requires a_in_bounds { a + 256 ≤ length file.now }
    requires b_in_bounds { b + 256 ≤ length file.now }
    ensures { result ≡ same (part a 256 file.now) (part b 256 file.now) }
{
    file[a..a + places::NAME] == file[b..b + places::NAME]
}

// Rows that a reading passes one by one; to one behind them it may go at once.
const PASSED: usize = 150000;

// The row from which on the dependency is sought first: the one halfway, where a reading passes it.
fn sought_from(row: usize) -> usize
    ensures { result ≤ row }
{
    PASSED.min(row / 2)
}

// Tests 11, 13, 14.
pub fn parent(file: &[u8], row: usize, dependency: usize) -> Result<Option<ParentRow>, Refusal>
    ensures { parent_answer result ≡ parent file.now row dependency }
{
    let mut index = [0u32; walk::INDEX];
    let from = sought_from(row);
    let middle = walk::row_of(file, from, row, &mut index)?;
    let own = walk::row_behind(file, from, Ok(middle), row, &mut index)?;
    if own.layout.dependencies <= dependency {
        return Err(Refusal::NoDependency);
    }
    let at = own.at + places::DEPENDENCIES + places::DEPENDENCY_BYTES * dependency;
    let serial = serial_at(file, at + places::DEPENDENCY_SERIAL);
    match walk::row_with(file, own, from, middle.at, serial, &mut index) {
        None => Ok(None),
        Some(found) => {
            let subformat = found.place + places::SUB_FORMAT;
            Ok(Some(ParentRow {
                row: found.row,
                agree: agree(file, at + places::DEPENDENCY_SUB_FORMAT, subformat),
            }))
        }
    }
}
