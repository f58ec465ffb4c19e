// The chunk description, built by chained methods that take it by value and hand it back. A text of any length is taken,
// and its length kept, so that append can judge it. A serial number comes only with ALT, SLV and MAS.
ghost use Rattle.std.specs.Prelude.{◌≡◌, take, replicate};
ghost use Rattle.metafile.specs.Fields.{padded};
ghost use Rattle.metafile.specs.Lines.{ALT, SLV, MAS};
ghost use Rattle.metafile.specs.Description.{text256, text32, nothing_given, with_sub_format, with_generic_type, with_synch_type, with_standard, with_offset, with_event, with_serial, with_recording, with_writing};

use crate::{Description, Text32, Text256};

// The first N bytes of a text, with spaces behind a shorter one.
fn padded<const N: usize>(text: &[u8]) -> [u8; N]
    ensures { result ≡ take N (padded N text.now) }
{
    let mut bytes = [b' '; N];
    let long = text.len().min(N);
    bytes[..long].copy_from_slice(&text[..long]);
    bytes
}

// twin: a struct that C is given has no const parameter, so there is one type for each width.
impl Text256 {
    // A text as it is given: its first 256 bytes, with spaces behind a shorter one, and its whole length.
    pub fn taken(text: &[u8]) -> Text256
        ensures { result ≡ text256 text.now }
    {
        Text256 {
            bytes: padded(text),
            given: text.len(),
        }
    }
}

impl Text32 {
    // A text as it is given: its first 32 bytes, with spaces behind a shorter one, and its whole length.
    pub fn taken(text: &[u8]) -> Text32
        ensures { result ≡ text32 text.now }
    {
        Text32 {
            bytes: padded(text),
            given: text.len(),
        }
    }
}

impl Description {
    // Nothing given: append refuses what is left so (6), but for the texts, which are empty then.
    pub fn new() -> Self
        ensures { result ≡ nothing_given }
    {
        let none = [0u8; 38];
        Description {
            subformat: Text256 {
                bytes: [32u8; 256],
                given: 0,
            },
            generic: [0u8; 3],
            synch: [0u8; 3],
            standard: [0u8; 3],
            alternate: none,
            offset: [0u8; 16],
            event: [0u8; 3],
            linked: none,
            serial: none,
            recorded: [0u8; 8],
            recorder: Text32 {
                bytes: [32u8; 32],
                given: 0,
            },
            written: [0u8; 8],
            writer: Text32 {
                bytes: [32u8; 32],
                given: 0,
            },
        }
    }

    pub fn sub_format(mut self, text: &[u8]) -> Self
        ensures { result ≡ with_sub_format self text.now }
    {
        let taken = Text256::taken(text);
        self.subformat = taken;
        self
    }

    pub fn generic_type(mut self, word: [u8; 3]) -> Self
        ensures { result ≡ with_generic_type self word }
    {
        self.generic = word;
        self
    }

    pub fn synch_type(mut self, word: [u8; 3]) -> Self
        ensures { result ≡ with_synch_type self word }
    {
        self.synch = word;
        self
    }

    // The word alone, with spaces behind it.
    pub fn time_standard(mut self, word: [u8; 3]) -> Self
        ensures { result ≡ with_standard self word (replicate 38 32) }
    {
        let spaces = [32u8; 38];
        self.standard = word;
        self.alternate = spaces;
        self
    }

    // ALT, with its serial number.
    pub fn alternate_standard(mut self, serial: [u8; 38]) -> Self
        ensures { result ≡ with_standard self ALT serial }
    {
        let word = [b'A', b'L', b'T'];
        self.standard = word;
        self.alternate = serial;
        self
    }

    pub fn time_offset(mut self, bytes: [u8; 16]) -> Self
        ensures { result ≡ with_offset self bytes }
    {
        self.offset = bytes;
        self
    }

    // The word alone, with spaces behind it.
    pub fn event_synch(mut self, word: [u8; 3]) -> Self
        ensures { result ≡ with_event self word (replicate 38 32) }
    {
        let spaces = [32u8; 38];
        self.event = word;
        self.linked = spaces;
        self
    }

    // SLV, with its serial number.
    pub fn slave_event(mut self, serial: [u8; 38]) -> Self
        ensures { result ≡ with_event self SLV serial }
    {
        let word = [b'S', b'L', b'V'];
        self.event = word;
        self.linked = serial;
        self
    }

    // MAS, with its serial number.
    pub fn master_event(mut self, serial: [u8; 38]) -> Self
        ensures { result ≡ with_event self MAS serial }
    {
        let word = [b'M', b'A', b'S'];
        self.event = word;
        self.linked = serial;
        self
    }

    pub fn serial_number(mut self, serial: [u8; 38]) -> Self
        ensures { result ≡ with_serial self serial }
    {
        self.serial = serial;
        self
    }

    // Recording date and agent.
    pub fn recording(mut self, date: [u8; 8], agent: &[u8]) -> Self
        ensures { result ≡ with_recording self date agent.now }
    {
        let taken = Text32::taken(agent);
        self.recorded = date;
        self.recorder = taken;
        self
    }

    // Writing date and agent.
    pub fn writing(mut self, date: [u8; 8], agent: &[u8]) -> Self
        ensures { result ≡ with_writing self date agent.now }
    {
        let taken = Text32::taken(agent);
        self.written = date;
        self.writer = taken;
        self
    }
}
