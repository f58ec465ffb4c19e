// Which row's dependencies name which row, as the table of the crate graph, and how many of each row's dependencies name no row.
ghost use Rattle.std.specs.Prelude.{◌≡◌, ◌+◌, ◌≤◌, ◌<◌, length, replicate, MatchOption};
ghost use Rattle.metafile.specs.Bytes.{part};
ghost use Rattle.metafile.specs.Reading.{rows_of};
ghost use Rattle.metafile.specs.Calls.{row_with};
ghost use Rattle.metafile.specs.Ancestors.{missing_of};
ghost use Rattle.ancestors.specs.Noted.{AllNoted};
ghost use Rattle.ancestors.specs.Steps.{Tabled, Counted, Kept};

use crate::rows::NotedRow;
use graph::ROWS;
use table::places;

// The bytes of the table.
pub const TABLE: usize = 4096;

// "Serials are compared by their first 35 bytes."
const COMPARED: usize = 35;

// The row with the serial number at a place of the file.
fn row_with(file: &[u8], rows: &[NotedRow], serial: usize) -> Option<usize>
    requires noted { AllNoted file.now rows.now }
    requires serial_in_bounds { serial + 38 ≤ length file.now }
    ensures { MatchOption result
        (length rows.now ≤ row_with (part serial 38 file.now) (rows_of file.now))
        (λ i. (i < length rows.now) × (i ≡ row_with (part serial 38 file.now) (rows_of file.now))) }
{
    let sought = &file[serial..serial + COMPARED];
    for (i, row) in rows.iter().enumerate() {
        let own = row.serial;
        if search::same_bytes(sought, &file[own..own + COMPARED]) {
            return Some(i);
        }
    }
    None
}

// The steps of a row, behind those of the rows before it. Answers how many of its dependencies name no row.
fn put_row(file: &[u8], rows: &[NotedRow], row: usize, table: &mut [u8]) -> usize
    requires noted { AllNoted file.now rows.now }
    requires row_in_bounds { row < length rows.now }
    requires tabled { Tabled file.now (length rows.now) row table.old }
    ensures { (result ≡ missing_of file.now row) × Tabled file.now (length rows.now) (row + 1) table.new }
{
    let own = rows[row];
    let first = own.place + places::DEPENDENCIES + places::DEPENDENCY_SERIAL;
    let mut missing: usize = 0;
    for j in 0..own.dependencies {
        match row_with(file, rows, first + places::DEPENDENCY_BYTES * j) {
            Some(parent) => table[row * ROWS + parent] = 1,
            None => missing += 1,
        }
    }
    missing
}

// The steps of all rows into an empty table, and how many dependencies of each row name no row. The rest of a row stays.
pub fn put_steps(file: &[u8], rows: &mut [NotedRow], table: &mut [u8])
    requires noted { AllNoted file.now rows.old }
    requires table_value { table.old ≡ replicate 4096 0 }
    ensures { Tabled file.now (length rows.old) (length rows.old) table.new × Counted file.now rows.new × Kept rows.old rows.new }
{
    for row in 0..rows.len() {
        let missing = put_row(file, rows, row, table);
        rows[row].missing = missing;
    }
}
