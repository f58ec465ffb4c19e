// Number fields, counts and texts: "A number field In is n digits 0 to 9. A text field An is n bytes from 32 to 126."
// Counts "may have leading spaces before at least one digit".
ghost use Rattle.std.specs.Prelude.{◌≡◌, ◌&&◌, ◌+◌, ◌-◌, ◌≤◌, leb, length};
ghost use Rattle.metafile.specs.Bytes.{part, all, is_zero};
ghost use Rattle.metafile.specs.Fields.{is_digit, number, digits_to, is_count, count_value, is_text, take_while, drop_while};

// How many bytes at the start of s lie from low to high.
pub fn leading(s: &[u8], low: u8, high: u8) -> usize
    ensures { result ≡ length (take_while (λ x. leb low x && leb x high) s.now) }
{
    s.iter()
        .take_while(|x| (low <= **x) & (**x <= high))
        .count()
}

// What follows the bytes at the start of s that lie from low to high.
pub fn after(s: &[u8], low: u8, high: u8) -> &[u8]
    ensures { result.now ≡ drop_while (λ x. leb low x && leb x high) s.now }
{
    let n = leading(s, low, high);
    &s[n..]
}

// Whether all bytes lie from low to high, with no branch between them.
fn within(s: &[u8], low: u8, high: u8) -> bool
    ensures { result ≡ all (λ x. leb low x && leb x high) s.now }
{
    s.iter()
        .fold(true, |good, x| good & ((low <= *x) & (*x <= high)))
}

pub fn is_digits(s: &[u8]) -> bool
    ensures { result ≡ all is_digit s.now }
{
    within(s, b'0', b'9')
}

pub fn is_text(s: &[u8]) -> bool
    ensures { result ≡ all is_text s.now }
{
    within(s, 32, 126)
}

// A byte as a digit: what it is above "0", and 0 where it is below.
fn digit(x: u8) -> u64
    ensures value { result ≡ x - 48 }
    ensures small { result ≤ 207 }
{
    u64::from(x.saturating_sub(b'0'))
}

// The number that digits come to, from the last on: no product waits for the sum.
pub fn number(s: &[u8]) -> u64
    requires { length s.now ≤ 12 }
    ensures { result ≡ number s.now }
{
    let mut value: u64 = 0;
    let mut power: u64 = 1;
    for x in s.iter().rev() {
        value += digit(*x) * power;
        power *= 10;
    }
    value
}

// The number of the n bytes from the place `at` on.
pub fn number_at(s: &[u8], at: usize, n: usize) -> u64
    requires { (n ≤ 12) × (at + n ≤ length s.now) }
    ensures { result ≡ number (part at n s.now) }
{
    number(&s[at..at + n])
}

// Whether the n bytes from the place `at` on are digits that come to at most so much.
pub fn digits_at(s: &[u8], at: usize, n: usize, most: u64) -> bool
    requires { (n ≤ 12) × (at + n ≤ length s.now) }
    ensures { result ≡ digits_to most (part at n s.now) }
{
    is_digits(&s[at..at + n]) & (number_at(s, at, n) <= most)
}

// ---- lengths, counts, the mark length and the two checks

// Spaces, then digits to the end, at least one.
fn is_padded(s: &[u8]) -> bool
    ensures { result ≡ is_count s.now }
{
    let rest = after(s, b' ', b' ');
    (1 <= rest.len()) & (leading(rest, b'0', b'9') == rest.len())
}

// Most are digits alone.
pub fn is_count(s: &[u8]) -> bool
    ensures { result ≡ is_count s.now }
{
    if s.len() == 0 {
        return false;
    }
    if is_digits(s) {
        return true;
    }
    is_padded(s)
}

// A space in front is below "0" and counts nothing.
pub fn count_value(s: &[u8]) -> u64
    requires { length s.now ≤ 12 }
    ensures { result ≡ count_value s.now }
{
    number(s)
}

// Whether a count is 0: no byte of it is above "0".
pub fn counts_nothing(s: &[u8]) -> bool
    ensures { result ≡ is_zero (count_value s.now) }
{
    within(s, 0, b'0')
}
