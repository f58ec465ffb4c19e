// The call ancestors: "every row that can be reached from row k by dependencies, each listed one time, in file order, k left out,
// with the count of those dependencies, of k and of the listed rows, that name no row". The file is judged as by parent: one
// reading, which the crate walk makes without a table. The places of its rows, at most 64, are noted on the way; then each
// dependency is looked up among them, and the crate graph goes from row to row. On a refusal the list is left as it is. The
// contract cites ancestors and ancestors_answer of the crate metafile (specs/Ancestors, Answers).
//     rows   the rows of a file, noted in one reading
//     steps  which row's dependencies name which row, and which name none
//     lists  the rows that are marked: counted, listed, their missing parents added up
#![tactic(auto)]

ghost use Rattle.std.specs.Prelude.{◌≡◌};
ghost use Rattle.metafile.specs.Answers.{outcome, ancestors_answer};
ghost use Rattle.metafile.specs.Ancestors.{ancestors};

use graph::ROWS;
use metafile::{Reached, Refusal, over_limit};

mod lists;
mod rows;
mod steps;

// Tests 11, 13, 24, 23, 18.
pub fn ancestors(file: &[u8], row: usize, list: &mut [usize]) -> Result<Reached, Refusal>
    ensures { outcome (ancestors_answer result) list.new ≡ ancestors file.now row list.old }
{
    if over_limit(&[file.len()]) {
        return Err(Refusal::OverLimit);
    }
    let mut noted = [rows::UNNOTED; ROWS];
    let n = rows::note_rows(file, &mut noted);
    if n <= row {
        return Err(Refusal::NoRow);
    }
    if ROWS < n {
        return Err(Refusal::RowsOver64);
    }
    let rows = &mut noted[..n];
    let mut table = [0u8; steps::TABLE];
    steps::put_steps(file, rows, &mut table);
    let Some(reached) = graph::reach(&table, n, row) else {
        return Err(Refusal::Circle);
    };
    let marks = &reached[..n];
    let count = lists::count(marks, row);
    if list.len() < count {
        return Err(Refusal::NoRoom);
    }
    lists::put_rows(list, marks, row);
    Ok(Reached {
        count,
        missing: lists::missing(marks, rows),
    })
}
