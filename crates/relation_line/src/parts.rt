// The heading line, and where the fields of a well-formed relation line stand: each but the first behind a tab.
use table::places;

pub const HEADING: [u8; 130] =
    *b"ADS Metafile Master Relation Chunk Revision 1.00\tChild serial number\tChild sub-format ID\t\
    Parent serial number\tParent sub-format ID";

// the heading line with its LF
pub const HEADING_LINE: usize = 131;

pub const TAB: u8 = 9;

// "ADS relation"
pub const NAME_END: usize = 12;

pub const CHILD_SERIAL: usize = NAME_END + 1;

pub const CHILD_SERIAL_END: usize = CHILD_SERIAL + places::SERIAL;

pub const CHILD_NAME: usize = CHILD_SERIAL_END + 1;

pub const CHILD_NAME_END: usize = CHILD_NAME + places::NAME;

pub const PARENT_SERIAL: usize = CHILD_NAME_END + 1;

pub const PARENT_SERIAL_END: usize = PARENT_SERIAL + places::SERIAL;

pub const PARENT_NAME: usize = PARENT_SERIAL_END + 1;

// the bytes of the line
pub const LINE: usize = PARENT_NAME + places::NAME;

// the bytes by which serial numbers are compared
pub const COMPARED: usize = 35;
