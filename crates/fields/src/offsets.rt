// Time offsets: "sign + or -, I2 hours to 23, I2 minutes to 59, N11 seconds below 60. N11 is 11 bytes: spaces, digits
// with at most one point and at least one digit, spaces." The value is in units of 10^-10 second.
ghost use Rattle.std.specs.Prelude.{◌≡◌, true, cond, ◌&&◌, ◌*◌, ◌^◌, ◌<◌, ltb, pos, neg_ℤ, length};
ghost use Rattle.metafile.specs.Bytes.{all};
ghost use Rattle.metafile.specs.Fields.{is_digit, is_space, take_while, point_passed};
ghost use Rattle.metafile.specs.Fields.{is_decimal, second, decimal_units, is_offset, offset_value};

use crate::numbers::{after, digits_at, leading, number, number_at};

// ---- the parts of a decimal: spaces, digits, a point, digits, spaces

// The digits at the start of s.
fn digits(s: &[u8]) -> &[u8]
    ensures { result.now ≡ take_while is_digit s.now }
{
    let n = leading(s, b'0', b'9');
    &s[..n]
}

// What follows a point, where one stands first.
fn point_passed(s: &[u8]) -> &[u8]
    ensures { result.now ≡ point_passed s.now }
{
    if s.len() == 0 {
        return s;
    }
    if s[0] == b'.' {
        return &s[1..];
    }
    s
}

fn only_spaces(s: &[u8]) -> bool
    ensures { result ≡ all is_space s.now }
{
    leading(s, b' ', b' ') == s.len()
}

// ---- seconds

// A decimal in form, below 60: the digits before the point decide. Each part is passed over once.
fn is_seconds(s: &[u8]) -> bool
    requires { length s.now ≡ 11 }
    ensures { result ≡ (is_decimal s.now && ltb (decimal_units s.now) (60 * second)) }
{
    let t = after(s, b' ', b' ');
    let before = leading(t, b'0', b'9');
    let u = point_passed(&t[before..]);
    let behind = leading(u, b'0', b'9');
    (1 <= before + behind) & only_spaces(&u[behind..]) & (number(&t[..before]) < 60)
}

const SECOND: u64 = 10000000000;

// The powers of 10 up to a second.
const POWERS: [u64; 11] = [
    1,
    10,
    100,
    1000,
    10000,
    100000,
    1000000,
    10000000,
    100000000,
    1000000000,
    10000000000,
];

fn seconds_value(s: &[u8]) -> u64
    requires s_len { length s.now ≡ 11 }
    requires s_bound { decimal_units s.now < 60 * second }
    ensures { result ≡ decimal_units s.now }
{
    let t = after(s, b' ', b' ');
    let before = leading(t, b'0', b'9');
    let behind = digits(point_passed(&t[before..]));
    number(&t[..before]) * SECOND + number(behind) * POWERS[10 - behind.len()]
}

// The sign comes last; minus zero is 0.
fn signed(minus: bool, units: u64) -> i64
    requires { units < 2 ^ 63 }
    ensures { result ≡ cond minus (neg_ℤ (pos units)) (pos units) }
{
    let value = units as i64;
    if minus {
        return 0 - value;
    }
    value
}

pub fn is_offset(s: &[u8]) -> bool
    requires { length s.now ≡ 16 }
    ensures { result ≡ is_offset s.now }
{
    let sign = s[0];
    ((sign == b'+') | (sign == b'-'))
        & digits_at(s, 1, 2, 23)
        & digits_at(s, 3, 2, 59)
        & is_seconds(&s[5..16])
}

pub fn offset_value(s: &[u8]) -> i64
    requires s_len { length s.now ≡ 16 }
    requires s_value { is_offset s.now ≡ true }
    ensures { result ≡ offset_value s.now }
{
    let hours = number_at(s, 1, 2);
    let minutes = number_at(s, 3, 2);
    let units = (hours * 3600 + minutes * 60) * SECOND + seconds_value(&s[5..16]);
    signed(s[0] == b'-', units)
}
