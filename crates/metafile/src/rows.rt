// The row of no chunk: what a table holds before it is filled.
ghost use Rattle.std.specs.Prelude.{◌≡◌};
ghost use Rattle.metafile.specs.Append.{no_row};

use crate::Row;

impl Row {
    pub fn none() -> Row
        ensures { result ≡ no_row }
    {
        Row {
            serial: [0u8; 38],
            place: 0,
            header: 0,
            contents: 0,
            bytes: 0,
            end: 0,
            dependencies: 0,
            offset: 0,
            multichunk: false,
            good: false,
            ending: 0,
        }
    }
}
