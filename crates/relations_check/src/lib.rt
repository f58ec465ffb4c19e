// The calls that check the contents of a relation chunk, of the row that is named or of the one that holds: "The reader says
// for each relation line whether some row's header declares exactly that dependency." The rows are those of a reading with
// rows enough, which the crate walk goes through once; then they are gone through without being judged again, as many at a
// time as a directory of their serial numbers has room for, and every line is looked up among them. On a refusal nothing is
// written. The contracts cite relations_check, relations_check_latest and the two answers of the crate metafile (specs/Relations,
// Answers).
//     row          the row at which a cursor stands
//     latest       the relation chunk that holds
//     text_lines   the lines of the text: counted, judged
//     window       rows in a directory
#![tactic(auto)]

ghost use Rattle.std.specs.Prelude.{◌≡◌, ◌≤◌, length};
ghost use Rattle.metafile.specs.Answers.{outcome, count_answer, checked_answer};
ghost use Rattle.metafile.specs.Relations.{relations_check, relations_check_latest};
ghost use Rattle.index.specs.Index.{size};
ghost use Rattle.walk.specs.Known.{Ended};
ghost use Rattle.relations_check.specs.Judged.{Judging};
ghost use Rattle.relations_check.specs.Outcome.{judged, checked_text};

use crate::window::Rows;
use metafile::{CheckedRow, Refusal, over_limit};
use walk::Cursor;

mod latest;
mod row;
mod text_lines;
mod window;

// The verdicts of the text's lines, by all rows.
fn judge_rows(file: &[u8], end: Cursor, d: &mut [u32], text: &[u8], verdicts: &mut [u32])
    requires ended { Ended file.now end }
    requires file_len_bound { length file.now ≤ 1073741824 }
    requires d_len { length d.old ≡ size }
    requires judging { Judging file.now 0 text.now verdicts.old }
    ensures { verdicts.new ≡ judged file.now text.now verdicts.old }
{
    let h = end.header;
    let mut at = h.end;
    let mut k: usize = 0;
    while k < end.row {
        directory::clear(d);
        let window = window::fill(file, h, k, at, end.row, d);
        let rows = Rows {
            file,
            directory: d,
            window,
        };
        rows.judge(text, verdicts);
        k = window.from + window.entries;
        at = window.end;
    }
}

// A text, checked by all rows. Tests 20, then 18.
fn check_text(
    file: &[u8],
    end: Cursor,
    d: &mut [u32],
    text: &[u8],
    verdicts: &mut [u32],
) -> Result<usize, Refusal>
    requires ended { Ended file.now end }
    requires file_len_bound { length file.now ≤ 1073741824 }
    requires d_len { length d.old ≡ size }
    ensures { outcome (count_answer result) verdicts.new ≡ checked_text file.now text.now verdicts.old }
{
    if !text_lines::is_headed(text) {
        return Err(Refusal::Heading);
    }
    let n = text_lines::count(text);
    if verdicts.len() < n {
        return Err(Refusal::NoRoom);
    }
    text_lines::put_forms(text, verdicts);
    judge_rows(file, end, d, text, verdicts);
    Ok(n)
}

// Tests 11, 13, 19, 20, 18.
pub fn check(file: &[u8], row: usize, verdicts: &mut [u32]) -> Result<usize, Refusal>
    ensures { outcome (count_answer result) verdicts.new ≡ relations_check file.now row verdicts.old }
{
    let mut index = [0u32; walk::INDEX];
    let own = walk::row_of(file, row, walk::ALL, &mut index)?;
    if !row::is_relations(file, own) {
        return Err(Refusal::NotRelations);
    }
    let end = walk::last(file, own, &mut index);
    check_text(file, end, &mut index, row::contents(file, own), verdicts)
}

// The row that holds, where none is named. Tests 11, 13, 20, 18.
pub fn check_latest(file: &[u8], verdicts: &mut [u32]) -> Result<CheckedRow, Refusal>
    ensures { outcome (checked_answer result) verdicts.new ≡ relations_check_latest file.now verdicts.old }
{
    if over_limit(&[file.len()]) {
        return Err(Refusal::OverLimit);
    }
    let mut index = [0u32; walk::INDEX];
    let first = walk::first(file, walk::ALL, &mut index);
    let (end, latest) = latest::choose(file, first, &mut index);
    let Some(latest) = latest else {
        return Err(Refusal::NoRow);
    };
    let own = latest.own;
    let count = check_text(file, end, &mut index, row::contents(file, own), verdicts)?;
    Ok(CheckedRow {
        count,
        row: own.row,
    })
}
