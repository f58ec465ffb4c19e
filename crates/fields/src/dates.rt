// Dates: "I4 year from 1, I2 month, I2 day, Gregorian." Reading one gives the day, and by it the day's number, "where 1 January
// of year 1 is 1".
ghost use Rattle.std.specs.Prelude.{true, ◌≡◌, ◌-◌, ◌≤◌, length};
ghost use Rattle.metafile.specs.Fields.{leap, month_days};
ghost use Rattle.metafile.specs.Days.{civil, is_day, years_days, months_days, day_on, day_read, day_value_of, Read};

use crate::numbers::{is_digits, number_at};
use metafile::Day;

fn leap(year: u64) -> bool
    ensures { result ≡ leap year }
{
    (year % 4 == 0) & ((year % 100 != 0) | (year % 400 == 0))
}

// The days of a month; no days where there is no such month. From August on the even months have 31.
fn month_days(year: u64, month: u64) -> u64
    ensures { result ≡ month_days year month }
{
    if (month == 0) | (12 < month) {
        return 0;
    }
    if month == 2 {
        return 28 + u64::from(leap(year));
    }
    30 + (month + month / 8) % 2
}

pub fn read_date(s: &[u8]) -> Option<Day>
    requires { length s.now ≡ 8 }
    ensures { result ≡ day_read s.now }
{
    let year = number_at(s, 0, 4);
    let month = number_at(s, 4, 2);
    let day = number_at(s, 6, 2);
    // over a length that the compiler knows
    let digits = is_digits(&s[..8]);
    if digits & (1 <= year) & (1 <= day) & (day <= month_days(year, month)) {
        return Some(Day {
            year: year as u16,
            month: month as u8,
            day: day as u8,
        });
    }
    None
}

// ---- the number of a day

// The days of the years before this one.
fn days_before(year: u64) -> u64
    requires { (1 ≤ year) × (year ≤ 9999) }
    ensures { result ≡ years_days (year - 1) }
{
    let y = year - 1;
    365 * y + y / 4 + y / 400 - y / 100
}

// The days before each month of a common year; month 0 is none.
const MONTH_STARTS: [u64; 13] = [0, 0, 31, 59, 90, 120, 151, 181, 212, 243, 273, 304, 334];

// The days of the year before a month: one more behind February of a leap year.
fn month_start(year: u64, month: u64) -> u64
    requires { month ≤ 12 }
    ensures { result ≡ months_days year (month - 1) }
{
    let m = month as usize;
    MONTH_STARTS[m] + u64::from((2 < month) & leap(year))
}

fn number_on(year: u64, month: u64, day: u64) -> u32
    requires day_value { is_day (civil year month day) ≡ true }
    requires year_bound { year ≤ 9999 }
    ensures { result ≡ day_on (civil year month day) }
{
    (days_before(year) + month_start(year, month) + day) as u32
}

// The number of the day that was read, 0 where there is none. In a reading nobody asks for it.
pub fn day_number(day: Option<Day>) -> u32
    requires { Read day }
    ensures { result ≡ day_value_of day }
{
    match day {
        Some(d) => number_on(u64::from(d.year), u64::from(d.month), u64::from(d.day)),
        None => 0,
    }
}
