// One line of a relation chunk's text ("a heading line, then lines of five fields divided by tabs"): known by its name, judged,
// compared with a chunk's header, and put into a buffer. The contracts cite the crate metafile (specs/Relations).
//     parts      where the fields of a well-formed line stand
//     verdicts   what is said of a line, and its number
//     judge      the form of a line, and whether a chunk declares it
//     write      the heading line, and the line of one dependency
#![tactic(auto)]

ghost use Rattle.std.specs.Prelude.{◌≡◌, length};
ghost use Rattle.metafile.specs.Bytes.{same};
ghost use Rattle.metafile.specs.Relations.{relations_name, heading};

mod judge;
pub mod parts;
mod verdicts;
mod write;

pub use judge::{declares, form, is_named};
pub use verdicts::Verdict;
pub use write::{put_heading, put_line};

// Whether the 256 bytes of a sub-format name a relation chunk: the name, padded with spaces.
pub fn is_relations(id: &[u8]) -> bool
    requires { length id.now ≡ 256 }
    ensures { result ≡ same id.now relations_name }
{
    table::names::is_padded(id, b"ADS\\SYS\\Relations")
}

pub fn is_heading(line: &[u8]) -> bool
    ensures { result ≡ same line.now heading }
{
    let heading = parts::HEADING;
    search::same_bytes(line, &heading)
}
