// The form of a line: "Lines without a defined name are comments", one that has the name has five well-formed fields or is
// malformed; and whether a chunk declares the relation of such a line.
ghost use Rattle.std.specs.Prelude.{◌≡◌, true, ◌+◌, ◌*◌, ◌≤◌, length};
ghost use Rattle.metafile.specs.Bytes.{part};
ghost use Rattle.metafile.specs.Fields.{is_serial};
ghost use Rattle.metafile.specs.Relations.{split_on, well_formed, is_parent_of, chunk_declares};
ghost use Rattle.relation_line.specs.Form.{has_name, form_of, first_verdict, form_number};

use crate::parts;
use crate::verdicts::Verdict;
use metafile::Day;
use table::places;

// The first field is the name of a relation line.
pub fn is_named(line: &[u8]) -> bool
    ensures { result ≡ has_name line.now }
{
    if line.len() < parts::NAME_END {
        return false;
    }
    if !search::same_bytes(&line[..parts::NAME_END], b"ADS relation") {
        return false;
    }
    if line.len() == parts::NAME_END {
        return true;
    }
    line[parts::NAME_END] == parts::TAB
}

// The 38 bytes at a place are a serial number.
fn serial_at(line: &[u8], at: usize) -> bool
    requires { at + 38 ≤ length line.now }
    ensures { result ≡ is_serial (part at 38 line.now) }
{
    let day = fields::read_serial(fields::serial_from(&line[at..at + places::SERIAL]));
    Day::fault(day).is_ok()
}

// A line that has the name has five well-formed fields: these have fixed lengths, so all is tested by place.
fn is_formed(line: &[u8]) -> bool
    requires { has_name line.now ≡ true }
    ensures { result ≡ well_formed (split_on 9 line.now) }
{
    if line.len() != parts::LINE {
        return false;
    }
    (line[parts::NAME_END] == parts::TAB)
        & (line[parts::CHILD_SERIAL_END] == parts::TAB)
        & (line[parts::CHILD_NAME_END] == parts::TAB)
        & (line[parts::PARENT_SERIAL_END] == parts::TAB)
        & serial_at(line, parts::CHILD_SERIAL)
        & fields::is_text(&line[parts::CHILD_NAME..parts::CHILD_NAME_END])
        & serial_at(line, parts::PARENT_SERIAL)
        & fields::is_text(&line[parts::PARENT_NAME..parts::LINE])
}

// The verdict of a line where nothing is declared yet; a comment has none.
pub fn form(line: &[u8]) -> Option<Verdict>
    ensures verdict { result ≡ first_verdict line.now }
    ensures number { form_number result ≡ form_of line.now }
{
    if !is_named(line) {
        return None;
    }
    if is_formed(line) {
        return Some(Verdict::Undeclared);
    }
    Some(Verdict::Malformed)
}

// Dependency j of the chunk s is the line's parent.
fn is_parent(s: &[u8], j: usize, line: &[u8]) -> bool
    requires { (568 + 344 * j + 344 ≤ length s.now) × (form_of line.now ≡ 2) }
    ensures { result ≡ is_parent_of (split_on 9 line.now) s.now j }
{
    let at = places::DEPENDENCIES + places::DEPENDENCY_BYTES * j;
    let serial = at + places::DEPENDENCY_SERIAL;
    let declared = &s[serial..serial + parts::COMPARED];
    let asked = &line[parts::PARENT_SERIAL..parts::PARENT_SERIAL + parts::COMPARED];
    if !search::same_bytes(declared, asked) {
        return false;
    }
    let name = at + places::DEPENDENCY_SUB_FORMAT;
    search::same_bytes(
        &s[name..name + places::NAME],
        &line[parts::PARENT_NAME..parts::LINE],
    )
}

// The chunk s, of n dependencies, has the child's sub-format and the parent among its dependencies.
pub fn declares(s: &[u8], n: usize, line: &[u8]) -> bool
    requires n_in_bounds { 568 + 344 * n ≤ length s.now }
    requires line_value { form_of line.now ≡ 2 }
    ensures { result ≡ chunk_declares (split_on 9 line.now) s.now n }
{
    let own = &s[places::SUB_FORMAT..places::SUB_FORMAT_END];
    let child = &line[parts::CHILD_NAME..parts::CHILD_NAME_END];
    search::same_bytes(own, child) && (0..n).any(|j| is_parent(s, j, line))
}
