// The search for a mark with a table of shifts (Horspool): at a place that is tried the byte under the mark's last one says
// how far the mark can be moved on, so most places are passed over. The contracts cite specs/Shifts; the laws of the shifts
// are in proofs/Shifts.
ghost use Rattle.std.specs.Prelude.{◌≡◌, ◌≤◌, ◌<◌, length, get_or};
ghost use Rattle.metafile.specs.Bytes.{find};
ghost use Rattle.search.specs.Shifts.{ShiftsOf, common_of, further_from, step_of, tries};

use crate::{find_byte, same_bytes};

const STRETCH: usize = 16;

// The first place of a mark, and how many places were tried.
#[repr(C)]
#[derive(Clone, Copy)]
pub struct Found {
    pub place: usize,
    pub tried: usize,
}

// For each byte how far the mark may move when that byte stands under its last one.
fn shifts(mark: &[u8]) -> [u16; 256]
    requires { (1 ≤ length mark.now) × (length mark.now ≤ 999) }
    ensures { ShiftsOf mark.now result }
{
    let last = mark.len() - 1;
    let mut table = [mark.len() as u16; 256];
    for i in 0..last {
        table[usize::from(mark[i])] = (last - i) as u16;
    }
    table
}

// How many first bytes of the mark stand at the start of s, counted one by one.
fn common_single(mark: &[u8], s: &[u8]) -> usize
    requires { length mark.now ≤ length s.now }
    ensures { result ≡ common_of mark.now s.now }
{
    for (i, x) in mark.iter().enumerate() {
        if s[i] != *x {
            return i;
        }
    }
    mark.len()
}

// The same number, by stretches of 16 bytes as long as these agree.
fn common(mark: &[u8], s: &[u8]) -> usize
    requires { length mark.now ≤ length s.now }
    ensures { result ≡ common_of mark.now s.now }
{
    let mut at = 0;
    // while: with a range of stretches a search for a mark of 999 bytes of which 500 stand everywhere takes 1.1 times as long
    while STRETCH <= mark.len() - at {
        if !same_bytes(&mark[at..at + STRETCH], &s[at..at + STRETCH]) {
            break;
        }
        at += STRETCH;
    }
    at + common_single(&mark[at..], &s[at..])
}

// From a place that is a bytes on, further to the mark's first byte where that is near or the mark is short. A shift of 1 has
// its own branch: so the next place does not wait for the table.
fn further(mark: &[u8], s: &[u8], a: usize) -> usize
    requires { (1 ≤ length mark.now) × (a ≤ length s.now) }
    ensures { result ≡ further_from mark.now s.now a }
{
    if a == 1 {
        return 1 + find_byte(mark[0], &s[1..]);
    }
    if (a < 8) | (mark.len() < 16) {
        return a + find_byte(mark[0], &s[a..]);
    }
    a
}

// The entry of a byte.
fn shift(table: &[u16; 256], x: u8) -> usize
    ensures { (result ≡ get_or table.now x 0) × (x < 256) }
{
    usize::from(table[usize::from(x)])
}

// How far on from the start of s the next place is tried; 0 where the mark stands there.
// number: step_of of specs/Shifts, which stays as it is, is 0 there
fn step(mark: &[u8], s: &[u8], table: &[u16; 256]) -> usize
    requires in_bounds { (1 ≤ length mark.now) × (length mark.now ≤ length s.now) }
    requires table_value { ShiftsOf mark.now table.now }
    ensures { result ≡ step_of mark.now s.now }
{
    let last = mark.len() - 1;
    let by_last = shift(table, s[last]);
    if s[last] != mark[last] {
        return further(mark, s, by_last);
    }
    let n = common(mark, s);
    if n == mark.len() {
        return 0;
    }
    let by_other = shift(table, s[n]).saturating_sub(last - n);
    further(mark, s, by_last.max(by_other))
}

// The first place of a mark of 1 to 999 bytes, or the end; and how many places were tried.
pub fn sought(mark: &[u8], s: &[u8]) -> Found
    requires { (1 ≤ length mark.now) × (length mark.now ≤ 999) }
    ensures { (result.place ≡ find mark.now s.now) × (result.tried ≡ tries mark.now 0 s.now) }
{
    let table = shifts(mark);
    let mut place: usize = 0;
    let mut tried: usize = 0;
    while mark.len() <= s.len() - place {
        tried += 1;
        let on = step(mark, &s[place..], &table);
        if on == 0 {
            return Found { place, tried };
        }
        place += on;
    }
    Found {
        place: s.len(),
        tried,
    }
}
