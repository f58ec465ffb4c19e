// What the calls answer to C, in the order of include/ads.h, and how each is made of what the call itself answers. Beside a number
// that is not 0 all else is 0 and false.
ghost use Rattle.std.specs.Prelude.{◌≡◌, cond};
ghost use Rattle.metafile.specs.Bytes.{choose};
ghost use Rattle.metafile.specs.Answers.{count_answer, checked_answer, append_answer, ancestors_answer, parent_answer as metafile_parent_answer};
ghost use Rattle.price.specs.Price.{price_answer};
ghost use Rattle.ads.specs.Answers.{written_answer, written_alone, counted_answer, counted_alone, counted_row_answer, counted_row_alone, parent_answer, parent_alone, ends_answer, ends_alone, ancestry_answer, ancestry_alone, priced_answer, priced_alone};

use metafile::{CheckedRow, ParentRow, Reached, Refusal};
use price::Parts;

// ads_written: the length of what was written.
// number: C has no enum with values.
#[repr(C)]
#[derive(Clone, Copy)]
pub struct Written {
    pub length: usize,
    pub number: u8,
}

impl From<Result<usize, Refusal>> for Written {
    ghost from_gives = { λ a w. (written_answer w ≡ count_answer a) × (w ≡ choose w.number w written_alone) };

    fn from(answer: Result<usize, Refusal>) -> Written {
        match answer {
            Ok(length) => Written { length, number: 0 },
            Err(refusal) => Written {
                length: 0,
                number: refusal.number(),
            },
        }
    }
}

// ads_counted: how many entries of a list were written.
// number: C has no enum with values.
#[repr(C)]
#[derive(Clone, Copy)]
pub struct Counted {
    pub count: usize,
    pub number: u8,
}

impl From<Result<usize, Refusal>> for Counted {
    ghost from_gives = { λ a w. (counted_answer w ≡ count_answer a) × (w ≡ choose w.number w counted_alone) };

    fn from(answer: Result<usize, Refusal>) -> Counted {
        match answer {
            Ok(count) => Counted { count, number: 0 },
            Err(refusal) => Counted {
                count: 0,
                number: refusal.number(),
            },
        }
    }
}

// ads_counted_row: the same, and the row that was chosen.
// number: C has no enum with values.
#[repr(C)]
#[derive(Clone, Copy)]
pub struct CountedRow {
    pub count: usize,
    pub row: usize,
    pub number: u8,
}

impl From<Result<CheckedRow, Refusal>> for CountedRow {
    ghost from_gives = { λ a w. (counted_row_answer w ≡ checked_answer a) × (w ≡ choose w.number w counted_row_alone) };

    fn from(answer: Result<CheckedRow, Refusal>) -> CountedRow {
        match answer {
            Ok(checked) => CountedRow {
                count: checked.count,
                row: checked.row,
                number: 0,
            },
            Err(refusal) => CountedRow {
                count: 0,
                row: 0,
                number: refusal.number(),
            },
        }
    }
}

// ads_parent_answer: the row, if one was found, and whether the sub-formats agree.
// number: C has no enum with values.
#[repr(C)]
#[derive(Clone, Copy)]
pub struct Parent {
    pub row: usize,
    pub found: bool,
    pub agree: bool,
    pub number: u8,
}

// "or missing": no row beside a number, 0 included.
fn no_parent(number: u8) -> Parent
    ensures { result ≡ parent_alone number }
{
    Parent {
        row: 0,
        found: false,
        agree: false,
        number,
    }
}

impl From<Result<Option<ParentRow>, Refusal>> for Parent {
    ghost from_gives = { λ a p. (parent_answer p ≡ metafile_parent_answer a) × (p ≡ choose p.number (cond p.found p (parent_alone 0)) parent_alone) };

    fn from(answer: Result<Option<ParentRow>, Refusal>) -> Parent {
        match answer {
            Ok(Some(parent)) => Parent {
                row: parent.row,
                found: true,
                agree: parent.agree,
                number: 0,
            },
            Ok(None) => no_parent(0),
            Err(refusal) => no_parent(refusal.number()),
        }
    }
}

// ads_ends: the ends of the three writes.
// number: C has no enum with values.
#[repr(C)]
#[derive(Clone, Copy)]
pub struct Ends {
    pub first: usize,
    pub second: usize,
    pub third: usize,
    pub number: u8,
}

impl From<Result<metafile::Ends, Refusal>> for Ends {
    ghost from_gives = { λ a w. (ends_answer w ≡ append_answer a) × (w ≡ choose w.number w ends_alone) };

    fn from(answer: Result<metafile::Ends, Refusal>) -> Ends {
        match answer {
            Ok(ends) => Ends {
                first: ends.first,
                second: ends.second,
                third: ends.third,
                number: 0,
            },
            Err(refusal) => Ends {
                first: 0,
                second: 0,
                third: 0,
                number: refusal.number(),
            },
        }
    }
}

// ads_ancestry: how many rows are listed, and how many dependencies name no row.
// number: C has no enum with values.
#[repr(C)]
#[derive(Clone, Copy)]
pub struct Ancestry {
    pub count: usize,
    pub missing: usize,
    pub number: u8,
}

impl From<Result<Reached, Refusal>> for Ancestry {
    ghost from_gives = { λ a w. (ancestry_answer w ≡ ancestors_answer a) × (w ≡ choose w.number w ancestry_alone) };

    fn from(answer: Result<Reached, Refusal>) -> Ancestry {
        match answer {
            Ok(reached) => Ancestry {
                count: reached.count,
                missing: reached.missing,
                number: 0,
            },
            Err(refusal) => Ancestry {
                count: 0,
                missing: 0,
                number: refusal.number(),
            },
        }
    }
}

// ads_priced: the length of the text, and the file's bytes in three parts.
// number: C has no enum with values.
#[repr(C)]
#[derive(Clone, Copy)]
pub struct Priced {
    pub length: usize,
    pub header: usize,
    pub chunks: usize,
    pub unread: usize,
    pub number: u8,
}

impl From<Result<Parts, Refusal>> for Priced {
    ghost from_gives = { λ a w. (priced_answer w ≡ price_answer a) × (w ≡ choose w.number w priced_alone) };

    fn from(answer: Result<Parts, Refusal>) -> Priced {
        match answer {
            Ok(parts) => Priced {
                length: parts.length,
                header: parts.header,
                chunks: parts.chunks,
                unread: parts.unread,
                number: 0,
            },
            Err(refusal) => Priced {
                length: 0,
                header: 0,
                chunks: 0,
                unread: 0,
                number: refusal.number(),
            },
        }
    }
}
