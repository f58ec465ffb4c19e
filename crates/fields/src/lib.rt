// The text fields of the metafile, judged and valued on slices: number fields, counts, texts, dates, offsets and
// serial numbers, as the scope paper has them under "Text fields". A test answers yes or no, a value is total on the
// bytes that its contract asks for; reading a date or a serial number gives the day, or that there is none, and the day has a
// number. Each contract equates the answer with the definition of that name in the metafile crate (specs/Fields, specs/Days).
// Tests are joined by & and |: all are made, with no branch between them; only a count that is not digits alone is judged in
// another way.
// It rests on `sums` for the serial number's check and on `search` for equal bytes.
//     numbers   digits, number fields, counts, texts
//     dates     dates: read; the number of a day
//     offsets   time offsets and their values
//     serials   serial numbers: read, compared, taken out of a slice
#![tactic(auto)]

mod dates;
mod numbers;
mod offsets;
mod serials;

pub use dates::{day_number, read_date};
pub use numbers::{count_value, counts_nothing, is_count, is_digits, is_text, number};
pub use offsets::{is_offset, offset_value};
pub use serials::{read_serial, same_serial, serial_from};
