// The rows that are marked as reached: counted, listed but for the row asked for, their missing parents added up.
ghost use Rattle.std.specs.Prelude.{◌≡◌, ◌≤◌, ◌<◌, length};
ghost use Rattle.metafile.specs.Answers.{placed};
ghost use Rattle.ancestors.specs.Lists.{is_listed, listed_rows, Small, marked_sum};

use crate::rows::NotedRow;
use graph::Mark;

// Whether row i is listed: it is another row, and is marked.
fn is_listed(marks: &[Mark], row: usize, i: usize) -> bool
    requires { i < length marks.now }
    ensures { result ≡ is_listed marks.now row i }
{
    let other = i != row;
    other && marks[i] == Mark::Done
}

// How many rows are listed.
pub fn count(marks: &[Mark], row: usize) -> usize
    ensures { result ≡ length (listed_rows marks.now row (length marks.now)) }
{
    (0..marks.len())
        .filter(|i| is_listed(marks, row, *i))
        .count()
}

// Lists them.
pub fn put_rows(list: &mut [usize], marks: &[Mark], row: usize)
    requires { length (listed_rows marks.now row (length marks.now)) ≤ length list.old }
    ensures { list.new ≡ placed 0 (listed_rows marks.now row (length marks.now)) list.old }
{
    let mut used: usize = 0;
    for i in 0..marks.len() {
        if is_listed(marks, row, i) {
            list[used] = i;
            used += 1;
        }
    }
}

// The missing parents of the rows that are marked, added up.
pub fn missing(marks: &[Mark], rows: &[NotedRow]) -> usize
    requires marks_in_bounds { length marks.now ≤ length rows.now }
    requires small { Small (length marks.now) rows.now }
    ensures { result ≡ marked_sum marks.now rows.now (length marks.now) }
{
    let mut sum: usize = 0;
    for (mark, row) in marks.iter().zip(rows) {
        if *mark == Mark::Done {
            sum += row.missing;
        }
    }
    sum
}
