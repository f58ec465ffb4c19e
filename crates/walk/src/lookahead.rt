// How many rows are there, found by a look at the chunks ahead, for a reading whose index has no room for them. The rows so far
// go into a filter; chunks ahead whose serial number the filter doesn't rule out are noted, by the place of their serial
// number, and sorted by it; and every chunk up to there is compared with those noted. The first that has the serial number of
// one before it ends the rows that are known to be there. What is noted too much, or sorted wrongly, costs time: the rows that
// are answered are there in any case. Contracts cite specs/Ahead; the laws are in proofs/Ahead.
ghost use Rattle.std.specs.Prelude.{true, ◌≡◌, ◌+◌, ◌≤◌, ◌<◌, length, take};
ghost use Rattle.metafile.specs.Bytes.{part};
ghost use Rattle.metafile.specs.Reading.{rows_of};
ghost use Rattle.index.specs.Index.{hash_of, size};
ghost use Rattle.filter.specs.Filter.{covering};
ghost use Rattle.order.specs.Order.{rising_of, Kept};
ghost use Rattle.walk.specs.Ahead.{room, Marked, Considered, Looked, Hashed, Before, Known};

use crate::answers::Ahead;
use crate::source::{Position, Source};
use metafile::LIMIT;
use table::places::SERIAL;

// Places that can be noted at once.
const ROOM: usize = 40000;

// Behind every place in a file.
const NONE: usize = 4294967295;

// A look at the chunks from a position on, up to row `until`, of a file within the limit: every place in it fits a u32.
#[derive(Clone, Copy)]
struct Scan<'a> {
    from: Position<'a>,
    until: usize,
    ghost small: { length from.source.file.now ≤ 1073741824 },
}

#[derive(Clone, Copy)]
struct Chunks {
    // chunks looked at, rows before included
    pub looked: usize,
    // places noted
    pub noted: usize,
}

// Sets the hash of the serial number at a place.
fn mark(file: &[u8], words: &mut [u32], place: usize)
    requires words_len { length words.old ≡ size }
    requires place_in_bounds { place + 38 ≤ length file.now }
    ensures { words.new ≡ covering (hash_of (part place 38 file.now)) words.old }
{
    let end = place + SERIAL;
    filter::cover(words, index::hash(&file[place..end]));
}

// The first i rows into the filter.
fn fill(source: Source, i: usize, words: &mut [u32])
    requires i_in_bounds { i ≤ length (rows_of source.file.now) }
    requires words_len { length words.old ≡ size }
    ensures { Marked source.entry.file.now i words.new }
{
    let mut at = source.header.end;
    for row in 0..i {
        let l = source.known_chunk(at);
        mark(source.file, words, source.serial_place(at, l));
        at += l.end;
    }
}

// Notes the place of a serial number where the filter doesn't rule it out, as number m, else sets its hash; answers how many are
// noted then.
fn candidate(
    ahead: Scan,
    words: &mut [u32],
    places: &mut [u32; ROOM],
    m: usize,
    place: usize,
) -> usize
    requires words_len { length words.old ≡ size }
    requires m_lt_room { m < room }
    requires place_in_bounds { place + 38 ≤ length ahead.from.source.file.now }
    ensures { Considered ahead.entry.from.source.file.now place m words.old places.old result words.new places.new }
{
    let end = place + SERIAL;
    let hash = index::hash(&ahead.from.source.file[place..end]);
    if filter::covered(words, hash) {
        places[m] = place as u32;
        return m + 1;
    }
    filter::cover(words, hash);
    m
}

// The chunks ahead, as far as they are whole and there is room to note them.
fn look(ahead: Scan, words: &mut [u32], places: &mut [u32; ROOM]) -> Chunks
    requires { Marked ahead.from.source.file.now ahead.from.row words.old }
    ensures { Looked ahead.entry.from.source.file.now result.looked (take result.noted places.new) × (result.noted ≤ room) × (length words.new ≡ size) }
{
    let source = ahead.from.source;
    let mut chunks = Chunks {
        looked: ahead.from.row,
        noted: 0,
    };
    let mut at = ahead.from.at;
    for row in ahead.from.row..=ahead.until {
        if at == source.file.len() || chunks.noted == ROOM {
            break;
        }
        let l = source.chunk_at(at);
        if l.number != 0 {
            break;
        }
        let place = source.serial_place(at, l);
        chunks.noted = candidate(ahead, words, places, chunks.noted, place);
        chunks.looked = row + 1;
        at += l.end;
    }
    chunks
}

// Sets the hashes of the serial numbers at the places noted.
fn hashed(file: &[u8], words: &mut [u32], noted: &[u32])
    requires { length words.old ≡ size }
    ensures { Hashed file.now noted.now words.new × (length words.new ≡ size) }
{
    for &place in noted {
        let place = place as usize;
        if place + SERIAL <= file.len() {
            mark(file, words, place);
        }
    }
}

// The first of the places noted that is behind `place` and has its serial number, where that is less than `least`.
fn lesser(file: &[u8], words: &[u32], noted: &[u32], place: usize, least: usize) -> usize
    requires words_len { length words.now ≡ size }
    requires place_in_bounds { place + 38 ≤ length file.now }
    requires file_len_bound { length file.now ≤ 1073741824 }
    requires hashed { Hashed file.now noted.now words.now }
    requires noted_value { rising_of file.now noted.now ≡ true }
    ensures { (result ≤ least) × Before file.now noted.now place result }
{
    let end = place + SERIAL;
    if filter::covered(words, index::hash(&file[place..end])) {
        if let Some(next) = order::next_same(file, noted, place) {
            return least.min(next);
        }
    }
    least
}

// How many of the n chunks looked at are rows: those before the first that has the serial number of a chunk before it.
fn compare(ahead: Scan, n: usize, words: &[u32], noted: &[u32]) -> Ahead
    requires words_len { length words.now ≡ size }
    requires looked { Looked ahead.from.source.file.now n noted.now }
    requires hashed { Hashed ahead.from.source.file.now noted.now words.now }
    requires noted_value { rising_of ahead.from.source.file.now noted.now ≡ true }
    ensures { Known ahead.entry.from.source.file.now result.rows result.last }
{
    let source = ahead.from.source;
    let mut at = source.header.end;
    let mut last = 0;
    let mut least = NONE;
    for k in 0..n {
        let l = source.known_chunk(at);
        let place = source.serial_place(at, l);
        if least <= place {
            return Ahead { rows: k, last };
        }
        least = lesser(source.file, words, noted, place, least);
        last = at;
        at += l.end;
    }
    Ahead { rows: n, last }
}

// What is to be compared: the rows before go into the filter, and the chunks ahead are looked at.
fn candidates(ahead: Scan, words: &mut [u32], places: &mut [u32; ROOM]) -> Chunks
    requires { length words.old ≡ size }
    ensures { Looked ahead.entry.from.source.file.now result.looked (take result.noted places.new) × (result.noted ≤ room) × (length words.new ≡ size) }
{
    words.fill(0);
    fill(ahead.from.source, ahead.from.row, words);
    look(ahead, words, places)
}

// Sorts the places noted by the serial numbers there, whose hashes the filter has then.
fn arrange(file: &[u8], words: &mut [u32], noted: &mut [u32])
    requires file_len_bound { length file.now ≤ 1073741824 }
    requires words_len { length words.old ≡ size }
    ensures { Kept noted.old noted.new × Hashed file.now noted.new words.new × (length words.new ≡ size) }
{
    order::sort(file, noted);
    words.fill(0);
    hashed(file, words, noted);
}

// Nothing is known.
fn no_rows() -> Ahead
    ensures { (result.rows ≡ 0) × (result.last ≡ 0) }
{
    Ahead { rows: 0, last: 0 }
}

// The rows known to be there, by a look that notes places in an array.
fn rows_noted(ahead: Scan, words: &mut [u32], places: &mut [u32; ROOM]) -> Ahead
    requires { length words.old ≡ size }
    ensures { Known ahead.entry.from.source.file.now result.rows result.last × (length words.new ≡ size) }
{
    let file = ahead.from.source.file;
    let chunks = candidates(ahead, words, places);
    let noted = &mut places[..chunks.noted];
    arrange(file, words, noted);
    if order::rising(file, noted) {
        return compare(ahead, chunks.looked, words, noted);
    }
    no_rows()
}

// The rows known to be there, from a position, by a look up to row `until`; none where nothing is known.
pub fn rows_ahead(from: Position, until: usize, words: &mut [u32]) -> Ahead
    requires words_len { length words.old ≡ size }
    ensures { Known from.entry.source.file.now result.rows result.last × (result.rows ≤ 1073741824) × (result.last ≤ 1073741824) × (length words.new ≡ size) }
{
    if LIMIT < from.source.file.len() {
        return no_rows();
    }
    let mut places = [0u32; ROOM];
    rows_noted(Scan { from, until }, words, &mut places)
}
