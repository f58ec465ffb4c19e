// The search for a mark: "the data end at the first place where the mark occurs". The bytes are a text and a tail
// behind it, so that data and the mark after them are searched without being copied together; when reading, the tail is
// empty.
//     find_mark    for reading and append: the text by shifts, what is behind it by the plain search
//     find_plain   the reference: every place of the mark's first byte is tried
//     horspool     the search by shifts, which counts the places that it tries
// The contracts cite same, starts and find of the crate metafile (specs/Bytes); the laws of the search are in proofs/Laws.
#![tactic(auto)]

ghost use Rattle.std.specs.Prelude.{◌≡◌, [], ◌∷◌, ◌++◌, min, length};
ghost use Rattle.metafile.specs.Bytes.{same, starts, find};
ghost use Rattle.search.specs.Shifts.{is_in};

mod horspool;

pub use horspool::{Found, sought};

const STRETCH: usize = 64;

// So many first bytes of a mark are compared before the others: most places differ there, and `==` goes by groups of 64.
const FRONT: usize = 16;

// The same bytes: all of them are compared, with no branch between them.
// by hand: with `==` a search among near matches takes 2.2 times as long
pub fn same_bytes(a: &[u8], b: &[u8]) -> bool
    ensures { result ≡ same a.now b.now }
{
    if a.len() != b.len() {
        return false;
    }
    let mut good = true;
    for i in 0..a.len() {
        good &= a[i] == b[i];
    }
    good
}

// The bytes s begin with the mark.
#[inline(always)]
pub fn begins(mark: &[u8], s: &[u8]) -> bool
    ensures { result ≡ starts mark.now s.now }
{
    let n = mark.len();
    if s.len() < n {
        return false;
    }
    if FRONT <= n && !same_bytes(&s[..FRONT], &mark[..FRONT]) {
        return false;
    }
    &s[..n] == mark
}

// The bytes s, followed by a tail, begin with the mark.
fn begins_across(mark: &[u8], s: &[u8], tail: &[u8]) -> bool
    ensures { result ≡ starts mark.now (s.now ++ tail.now) }
{
    let n = s.len();
    if mark.len() <= n {
        return begins(mark, s);
    }
    s == &mark[..n] && begins(&mark[n..], tail)
}

// The byte occurs: all bytes are compared, with no branch between them.
// by hand: with `contains`, whose loop is not inlined, the lines of a text are found in 1.2 times the time
fn has_byte(b: u8, s: &[u8]) -> bool
    ensures { result ≡ is_in b s.now }
{
    let mut found = false;
    for i in 0..s.len() {
        found |= s[i] == b;
    }
    found
}

// The first place of a byte; the end where it does not occur.
// by hand: with `position` it stayed open, by `search rules`, that its result is `position` of the bytes
fn find_single(b: u8, s: &[u8]) -> usize
    ensures { result ≡ find (b ∷ []) s.now }
{
    for (i, x) in s.iter().enumerate() {
        if *x == b {
            return i;
        }
    }
    s.len()
}

// The same place. Stretches of 64 bytes that do not have the byte are passed over.
fn find_far(b: u8, s: &[u8]) -> usize
    ensures { result ≡ find (b ∷ []) s.now }
{
    let mut at = 0;
    for i in 0..s.len() / STRETCH {
        if has_byte(b, &s[at..at + STRETCH]) {
            break;
        }
        at = STRETCH * (i + 1);
    }
    at + find_single(b, &s[at..])
}

// The same place. It is often near: so the first four bytes are looked at before a stretch is.
fn find_byte(b: u8, s: &[u8]) -> usize
    ensures { result ≡ find (b ∷ []) s.now }
{
    let n = s.len().min(4);
    let i = find_single(b, &s[..n]);
    if i < n {
        return i;
    }
    n + find_far(b, &s[n..])
}

// The first place of a mark that is inside the text, the text followed by a tail; the text's end where there is none. Where the
// mark is one byte, that is the place of this byte.
#[inline(always)]
fn find_inside(mark: &[u8], text: &[u8], tail: &[u8]) -> usize
    ensures { result ≡ min (find mark.now (text.now ++ tail.now)) (length text.now) }
{
    if mark.len() == 0 {
        return 0;
    }
    let first = mark[0];
    let mut p = find_byte(first, text);
    if mark.len() == 1 {
        return p;
    }
    while p < text.len() {
        if begins_across(mark, &text[p..], tail) {
            return p;
        }
        p += 1;
        p += find_byte(first, &text[p..]);
    }
    p
}

// The first place of a mark in a text that is followed by a tail; the end of both where it does not occur. Every place of the
// mark's first byte is tried.
pub fn find_plain(mark: &[u8], text: &[u8], tail: &[u8]) -> usize
    ensures { result ≡ find mark.now (text.now ++ tail.now) }
{
    let p = find_inside(mark, text, tail);
    if p < text.len() {
        return p;
    }
    p + find_inside(mark, tail, &tail[..0])
}

// The same place. The text is searched by shifts; a mark that isn't inside it can begin only where less than a mark is left
// of the text, or in the tail.
pub fn find_mark(mark: &[u8], text: &[u8], tail: &[u8]) -> usize
    ensures { result ≡ find mark.now (text.now ++ tail.now) }
{
    let m = mark.len();
    if (m == 0) | (999 < m) {
        return find_plain(mark, text, tail);
    }
    let found = sought(mark, text);
    let place = found.place;
    if place < text.len() {
        return place;
    }
    let from = text.len().saturating_sub(m - 1);
    from + find_plain(mark, &text[from..], tail)
}
