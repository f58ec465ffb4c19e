// A table of 76 rows, by value, so that its callers lend no table. 76 rows are enough for 65,536 bytes (proofs/Enough).
ghost use Rattle.std.specs.Prelude.{◌≡◌, replicate};
ghost use Rattle.metafile.specs.Append.{no_row};
ghost use Rattle.metafile.specs.Calls.{read};
ghost use Rattle.read.specs.State.{read_outcome};
ghost use Rattle.read.specs.Table.{table_rows};

use metafile::{ReadAnswer, Row};

// table_rows of specs/Table
pub const ROWS: usize = 76;

#[derive(Clone, Copy)]
pub struct Table {
    pub rows: [Row; ROWS],
    pub answer: ReadAnswer,
}

fn no_rows() -> [Row; ROWS]
    ensures { result ≡ replicate table_rows no_row }
{
    [Row::none(); ROWS]
}

// The rows of the file: all of them, where it has at most 65,536 bytes.
pub fn read_table(file: &[u8]) -> Table
    ensures { read_outcome result.answer result.rows ≡ read file.now (replicate table_rows no_row) }
{
    let mut rows = no_rows();
    let answer = crate::read(file, &mut rows);
    Table { rows, answer }
}
