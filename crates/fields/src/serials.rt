// Serial numbers, each one value of 38 bytes: "#", date, I2 hour to 23, I2 minute and I2 second to 59, I3 millisecond,
// A12 processor, I5 random to 65535, I3 check. "The check is the first 35 bytes added byte by byte, modulo 256." Reading
// one gives the day of its date.
ghost use Rattle.std.specs.Prelude.{◌≡◌, ◌≤◌, length, take};
ghost use Rattle.metafile.specs.Fields.{same_serial};
ghost use Rattle.metafile.specs.Days.{serial_read};

use crate::dates::read_date;
use crate::numbers::{count_value, digits_at, is_count, is_text};
use metafile::Day;

pub fn read_serial(serial: [u8; 38]) -> Option<Day>
    ensures { result ≡ serial_read serial }
{
    let s = &serial[..];
    let check = &s[35..38];
    let day = read_date(&s[1..9]);
    let good = (s[0] == b'#')
        & day.is_some()
        & digits_at(s, 9, 2, 23)
        & digits_at(s, 11, 2, 59)
        & digits_at(s, 13, 2, 59)
        & digits_at(s, 15, 3, 999)
        & is_text(&s[18..30])
        & digits_at(s, 30, 5, 65535);
    let right = count_value(check) == u64::from(sums::byte_sum(&s[0..35]));
    if good & is_count(check) & right {
        return day;
    }
    None
}

// "Serials are compared by their first 35 bytes."
pub fn same_serial(a: [u8; 38], b: [u8; 38]) -> bool
    ensures { result ≡ same_serial a b }
{
    let x = &a[..];
    let y = &b[..];
    search::same_bytes(&x[0..35], &y[0..35])
}

// The serial number at the start of a slice.
pub fn serial_from(s: &[u8]) -> [u8; 38]
    requires { 38 ≤ length s.now }
    ensures { result ≡ take 38 s.now }
{
    let Some(serial) = s.first_chunk::<38>() else {
        unreachable!()
    };
    *serial
}
