// What the calls that write have in common: the values of the lines to be written, the mark, the rows named as parents
// and their lines. Each contract cites the bytes or the test of the crate metafile.
// Rests on lines for the lines and bytes put, on table for their numbers and distances, on walk for where rows stand.
//     values   the values of lines, from a description, from integrity data and from parents
//     marks    the file's mark: without a zero byte or not; copied out
//     parents  13: rows named as parents
//     copies   the lines of parents, copied from their chunks
#![tactic(auto)]

mod copies;
mod marks;
mod parents;
mod values;

pub use copies::put_parents;
pub use marks::{is_clear, mark_of};
pub use parents::parents_wrong;
pub use values::{closing_values, count_value, given_values, head_values, integrity_values};
