// What is said of a relation line, and its number, which a list of verdicts has for each line: those of specs/Relations of
// the crate metafile.
ghost use Rattle.std.specs.Prelude.{◌≡◌};
ghost use Rattle.relation_line.specs.Form.{verdict_number};

#[derive(Clone, Copy, PartialEq, Eq)]
pub enum Verdict {
    Declared = 1,
    Undeclared = 2,
    Malformed = 3,
}

impl From<Verdict> for u32 {
    ghost from_gives = { λ v n. n ≡ verdict_number v };

    fn from(v: Verdict) -> u32 {
        v as u32
    }
}
