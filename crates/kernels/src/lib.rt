// Inner functions for the comparison and the benchmark to call: `tools/staticlib kernels`. They are no part of libads.a and
// not in include/ads.h. Each has the contract of the function that it is thin over.
#![tactic(auto)]

ghost use Rattle.std.specs.Prelude.{◌≡◌, cond, ◌||◌, eqb, leb, ltb, length};
ghost use Rattle.metafile.specs.Bytes.{find, sum};
ghost use Rattle.metafile.specs.Days.{day_read, day_value_of};
ghost use Rattle.index.specs.Index.{hash_of};
ghost use Rattle.search.specs.Shifts.{tries};

use search::Found;

#[unsafe(no_mangle)]
pub extern "C" fn kernel_byte_sum(s: &[u8]) -> u8
    ensures { result ≡ sum s.now }
{
    sums::byte_sum(s)
}

#[unsafe(no_mangle)]
pub extern "C" fn kernel_word_sum(s: &[u8]) -> u8
    ensures { result ≡ sum s.now }
{
    sums::word_sum(s)
}

// The first place of a mark, every place of its first byte tried; the end where it does not occur.
#[unsafe(no_mangle)]
pub extern "C" fn kernel_find_plain(mark: &[u8], s: &[u8]) -> usize
    ensures { result ≡ find mark.now s.now }
{
    search::find_plain(mark, s, &s[..0])
}

// The same place by shifts, and how many places were tried. A mark of no bytes or of over 999 has no shifts: it is found by
// the plain search, and no place is counted.
#[unsafe(no_mangle)]
pub extern "C" fn kernel_find(mark: &[u8], s: &[u8]) -> Found
    ensures place_value { result.place ≡ find mark.now s.now }
    ensures tried_value { result.tried ≡ cond (eqb (length mark.now) 0 || ltb 999 (length mark.now)) 0 (tries mark.now 0 s.now) }
{
    let m = mark.len();
    if (m == 0) | (999 < m) {
        return Found {
            place: search::find_plain(mark, s, &mark[..0]),
            tried: 0,
        };
    }
    search::sought(mark, s)
}

// The hash by which the index finds a serial number; 0 where there are fewer than its 38 bytes.
#[unsafe(no_mangle)]
pub extern "C" fn kernel_hash(s: &[u8]) -> u64
    ensures { result ≡ cond (leb 38 (length s.now)) (hash_of s.now) 0 }
{
    if 38 <= s.len() {
        return index::hash(s);
    }
    0
}

// The day number of a date; 0 where it is none, and where there are not just its 8 bytes.
#[unsafe(no_mangle)]
pub extern "C" fn kernel_day(date: &[u8]) -> u32
    ensures { result ≡ cond (eqb (length date.now) 8) (day_value_of (day_read date.now)) 0 }
{
    if date.len() == 8 {
        return fields::day_number(fields::read_date(date));
    }
    0
}
