// The rows that are reached from a row, and whether a circle is. At most 64 rows; the caller lends a table of 64 times 64
// bytes: row a goes to row b where byte a * 64 + b isn't 0. A row's standing asks its list, and the list asks each row that it
// names: two functions that call each other. They end because the number of unvisited rows falls. The contracts cite
// specs/Graph; the laws are in proofs/Laws. None of it is a public call.
#![tactic(auto)]

ghost use Rattle.std.specs.Prelude.{true, false, ◌≡◌, ◌≤◌, ◌<◌, length, MatchOption};
ghost use Rattle.metafile.specs.Closure.{circular_from};
ghost use Rattle.graph.specs.Graph.{goes, StandingGiven, RowDone, ListGiven, ListDone, Reached};

// The most rows, and the width of the table.
pub const ROWS: usize = 64;

#[derive(Clone, Copy, PartialEq, Eq)]
pub enum Mark {
    Unvisited,
    // on the path that is being followed
    OnPath,
    Done,
}

// Whether no circle is reached from a row. If so, the row and all rows that it reaches are done; else nothing is said of marks.
#[cycle(listed_standing)]
fn standing(table: &[u8], n: usize, row: usize, marks: &mut [Mark; ROWS]) -> bool
    requires { StandingGiven table.now n row marks.old }
    ensures done { result ≡ true → RowDone table.now n row marks.old marks.new }
    ensures circle { result ≡ false → circular_from (goes table.now) n row ≡ true }
{
    match marks[row] {
        Mark::OnPath => return false, // the path comes back to the row
        Mark::Done => return true, // by another way
        Mark::Unvisited => marks[row] = Mark::OnPath,
    }
    let fine = listed(table, n, row, marks);
    if fine {
        marks[row] = Mark::Done;
    }
    fine
}

// The same of all rows that a row on the path goes to.
#[cycle(listed_standing)]
fn listed(table: &[u8], n: usize, row: usize, marks: &mut [Mark; ROWS]) -> bool
    requires { ListGiven table.now n row marks.old }
    ensures done { result ≡ true → ListDone table.now n row n marks.old marks.new }
    ensures circle { result ≡ false → circular_from (goes table.now) n row ≡ true }
{
    for b in 0..n {
        let goes = table[row * ROWS + b] != 0;
        if goes && !standing(table, n, b, marks) {
            return false;
        }
    }
    true
}

// The marks behind a search from a row: the row and the rows that it reaches are done, and no others. None where a circle is
// reached.
// arrays: a caller may lend any 4,096 bytes, and each that isn't 0 is a step
pub fn reach(table: &[u8], n: usize, row: usize) -> Option<[Mark; ROWS]>
    requires table_len { length table.now ≡ 4096 }
    requires n_bound { n ≤ 64 }
    requires row_lt_n { row < n }
    ensures { MatchOption result (circular_from (goes table.now) n row ≡ true) (Reached table.now n row) }
{
    let mut marks = [Mark::Unvisited; ROWS];
    if standing(table, n, row, &mut marks) {
        Some(marks)
    } else {
        None
    }
}
