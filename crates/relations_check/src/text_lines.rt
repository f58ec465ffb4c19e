// The lines of a relation chunk's text, and their verdicts: "A last line may lack its LF."
ghost use Rattle.std.specs.Prelude.{◌≡◌, true, ◌++◌, ◌+◌, ◌≤◌, length, drop};
ghost use Rattle.std.specs.Iterator.{YieldsFirstRef, item_count};
ghost use Rattle.metafile.specs.Bytes.{same};
ghost use Rattle.metafile.specs.Lines.{first_of};
ghost use Rattle.metafile.specs.Relations.{split_on, heading, verdict_by, verdicts_by};
ghost use Rattle.relation_line.specs.Form.{has_name};
ghost use Rattle.relations_check.specs.Judged.{never, declared_below, Judging};
ghost use Rattle.relations_check.specs.TextLines.{lines_left};

use crate::window::Rows;
use relation_line::Verdict;

// The lines of a text, one after the other.
#[derive(Clone, Copy)]
pub struct Lines<'a> {
    // from the next line on; behind the last there is nothing
    pub left: Option<&'a [u8]>,
}

impl<'a> Iterator for Lines<'a> {
    type Item = &'a [u8];

    ghost next_gives = { YieldsFirstRef lines_left };

    ghost remaining = { item_count lines_left };

    fn next(&mut self) -> Option<&'a [u8]> {
        let text = self.left?;
        let end = search::find_plain(b"\n", text, &[]);
        self.left = if end < text.len() {
            Some(&text[end + 1..])
        } else {
            None
        };
        Some(&text[..end])
    }
}

impl<'a> Lines<'a> {
    pub fn of(text: &'a [u8]) -> Lines<'a>
        ensures { lines_left result ≡ split_on 10 text.now }
    {
        Lines { left: Some(text) }
    }
}

// The first line is the heading line.
pub fn is_headed(text: &[u8]) -> bool
    ensures { result ≡ same (first_of (split_on 10 text.now)) heading }
{
    Lines::of(text)
        .next()
        .is_some_and(|line| relation_line::is_heading(line))
}

// How many relation lines there are, malformed ones too.
pub fn count(text: &[u8]) -> usize
    ensures { result ≡ length (verdicts_by never (split_on 10 text.now)) }
{
    Lines::of(text)
        .filter(|line| relation_line::is_named(line))
        .count()
}

// The verdict of each relation line, where nothing is declared yet.
pub fn put_forms(text: &[u8], verdicts: &mut [u32])
    requires { length (verdicts_by never (split_on 10 text.now)) ≤ length verdicts.old }
    ensures { verdicts.new ≡ verdicts_by never (split_on 10 text.now) ++ drop (length (verdicts_by never (split_on 10 text.now))) verdicts.old }
{
    let forms = Lines::of(text).filter_map(|line| relation_line::form(line));
    for (i, form) in forms.enumerate() {
        verdicts[i] = u32::from(form);
    }
}

impl<'a> Rows<'a> {
    // The verdict of a relation line by the rows of the window too; it was another by the rows before them.
    fn verdict(self, line: &[u8], before: u32) -> u32
        requires line_value { has_name line.now ≡ true }
        requires before_value { before ≡ verdict_by (declared_below self.file.now self.window.from) line.now }
        ensures { result ≡ verdict_by (declared_below self.entry.file.now (self.entry.window.from + self.entry.window.entries)) line.now }
    {
        if before == u32::from(Verdict::Undeclared) && self.declares(line) {
            return u32::from(Verdict::Declared);
        }
        before
    }

    // The verdicts by the rows of the window too.
    pub fn judge(self, text: &[u8], verdicts: &mut [u32])
        requires { Judging self.file.now self.window.from text.now verdicts.old }
        ensures { verdicts.new ≡ verdicts_by (declared_below self.entry.file.now (self.entry.window.from + self.entry.window.entries)) (split_on 10 text.now) ++ drop (length (verdicts_by never (split_on 10 text.now))) verdicts.old }
    {
        let named = Lines::of(text).filter(|line| relation_line::is_named(line));
        for (i, line) in named.enumerate() {
            verdicts[i] = self.verdict(line, verdicts[i]);
        }
    }
}
