// The survey of a file for one that is to be appended to: one reading of the file.
ghost use Rattle.std.specs.Prelude.{◌≡◌};
ghost use Rattle.walk.specs.Survey.{noted, survey_of};

use crate::answers::Survey;
use crate::cursor::{ALL, first, next};
use crate::earlier::INDEX;
use crate::source::Source;

// Puts a value wherever row i is named: the values stand in the order of the rows named.
fn note(values: &mut [usize], rows: &[usize], i: usize, value: usize)
    ensures { values.new ≡ noted i value values.old rows.now }
{
    for j in 0..values.len().min(rows.len()) {
        if rows[j] == i {
            values[j] = value;
        }
    }
}

// The reading with rows enough, whether a serial number is in a row, and where the rows named as parents begin and end: of
// the first 16 named, 0 where a row is not in the reading.
pub fn survey(file: &[u8], serial: [u8; 38], parents: &[usize]) -> Survey
    ensures { result ≡ survey_of file.now serial parents.now }
{
    let mut index = [0u32; INDEX];
    let mut places = [0usize; 16];
    let mut ends = [0usize; 16];
    let mut known = false;
    let mut c = first(file, ALL, &mut index);
    while c.go {
        note(&mut places, parents, c.row, c.at);
        note(&mut ends, parents, c.row, c.at + c.layout.end);
        let source = Source {
            file,
            header: c.header,
        };
        known |= fields::same_serial(serial, source.serial_at(c.at, c.layout));
        c = next(file, c, ALL, &mut index);
    }
    Survey {
        count: c.row,
        stop: c.at,
        number: c.number,
        good: c.header.good,
        known,
        places,
        ends,
    }
}
