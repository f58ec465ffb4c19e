// What a refused call answers: "one refusal number", in the order of the table under "What a refused call gives".
ghost use Rattle.std.specs.Prelude.{◌≡◌};
ghost use Rattle.metafile.specs.Refusals.{number_of};

#[derive(Clone, Copy, Debug, PartialEq, Eq, Hash)]
pub enum Refusal {
    // the first 65 bytes don't match
    Title = 1,
    // NUL000, the tape form
    Tape = 2,
    // the mark begins "MiniChunk="
    MiniMark = 3,
    // the bytes end too soon; the mark of an open chunk is not found
    Short = 4,
    // a label, LF, mark or listed word differs
    Differs = 5,
    // a field out of form or range
    Form = 6,
    // a length disagrees with what it measures, or a type count outside 1 to 64
    Length = 7,
    // a short ID twice or undeclared, no mini-chunk
    ShortId = 8,
    // the serial number is already in a row
    KnownSerial = 9,
    // another whole chunk, its serial number new, and no row left
    RowsFull = 10,
    // a lent byte buffer over the limit, or a length over the buffer's
    OverLimit = 11,
    // append: the file is not clean
    NotClean = 12,
    // a row that is not in the reading; parents repeated or over 16
    NoRow = 13,
    // no dependency of that number; gather: not a MultiChunk, or the ID is undeclared
    NoDependency = 14,
    // begin, append: the mark has a zero byte
    ZeroInMark = 15,
    // open under LLC or for BIN, or the mark first found before the data's end
    Open = 16,
    // append of a MultiChunk
    Multichunk = 17,
    // the lent buffer or list is too short for the result
    NoRoom = 18,
    // relations: the row's sub-format is another
    NotRelations = 19,
    // relations: the heading line is wrong
    Heading = 20,
    // price: the total has more than 18 digits
    Total = 21,
    // ancestors: a chain of dependencies comes back to a row on it
    Circle = 23,
    // ancestors: more than 64 rows in the reading
    RowsOver64 = 24,
    // unpack: the sum of a block is wrong
    BlockSum = 27,
    // unpack: the number of a block is wrong
    BlockNumber = 28,
    // unpack: the use of a block is wrong, a spare byte isn't zero, or a block isn't whole
    BlockUse = 29,
}

impl Refusal {
    pub fn number(self) -> u8
        ensures { result ≡ number_of self }
    {
        self as u8
    }
}
