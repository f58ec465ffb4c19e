// The description of a chunk to append: the methods of metafile::Description. Each function takes a description by value
// and hands it back.
ghost use Rattle.std.specs.Prelude.{◌≡◌, replicate};
ghost use Rattle.metafile.specs.Lines.{ALT, SLV, MAS};
ghost use Rattle.metafile.specs.Description.{nothing_given, with_sub_format, with_generic_type, with_synch_type, with_standard, with_offset, with_event, with_serial, with_recording, with_writing};

use metafile::Description;

// Nothing given: append refuses what is left so (6), but for the texts, which are empty then.
#[unsafe(no_mangle)]
pub extern "C" fn ads_description_new() -> Description
    ensures { result ≡ nothing_given }
{
    Description::new()
}

#[unsafe(no_mangle)]
pub extern "C" fn ads_sub_format(d: Description, text: &[u8]) -> Description
    ensures { result ≡ with_sub_format d text.now }
{
    d.sub_format(text)
}

#[unsafe(no_mangle)]
pub extern "C" fn ads_generic_type(d: Description, word: &[u8; 3]) -> Description
    ensures { result ≡ with_generic_type d word.now }
{
    d.generic_type(*word)
}

#[unsafe(no_mangle)]
pub extern "C" fn ads_synch_type(d: Description, word: &[u8; 3]) -> Description
    ensures { result ≡ with_synch_type d word.now }
{
    d.synch_type(*word)
}

// The word alone, with spaces behind it.
#[unsafe(no_mangle)]
pub extern "C" fn ads_time_standard(d: Description, word: &[u8; 3]) -> Description
    ensures { result ≡ with_standard d word.now (replicate 38 32) }
{
    d.time_standard(*word)
}

// ALT, with its serial number.
#[unsafe(no_mangle)]
pub extern "C" fn ads_alternate_standard(d: Description, serial: &[u8; 38]) -> Description
    ensures { result ≡ with_standard d ALT serial.now }
{
    d.alternate_standard(*serial)
}

#[unsafe(no_mangle)]
pub extern "C" fn ads_time_offset(d: Description, bytes: &[u8; 16]) -> Description
    ensures { result ≡ with_offset d bytes.now }
{
    d.time_offset(*bytes)
}

// The word alone, with spaces behind it.
#[unsafe(no_mangle)]
pub extern "C" fn ads_event_synch(d: Description, word: &[u8; 3]) -> Description
    ensures { result ≡ with_event d word.now (replicate 38 32) }
{
    d.event_synch(*word)
}

// SLV, with its serial number.
#[unsafe(no_mangle)]
pub extern "C" fn ads_slave_event(d: Description, serial: &[u8; 38]) -> Description
    ensures { result ≡ with_event d SLV serial.now }
{
    d.slave_event(*serial)
}

// MAS, with its serial number.
#[unsafe(no_mangle)]
pub extern "C" fn ads_master_event(d: Description, serial: &[u8; 38]) -> Description
    ensures { result ≡ with_event d MAS serial.now }
{
    d.master_event(*serial)
}

#[unsafe(no_mangle)]
pub extern "C" fn ads_serial_number(d: Description, serial: &[u8; 38]) -> Description
    ensures { result ≡ with_serial d serial.now }
{
    d.serial_number(*serial)
}

// Recording date and agent.
#[unsafe(no_mangle)]
pub extern "C" fn ads_recording(d: Description, date: &[u8; 8], agent: &[u8]) -> Description
    ensures { result ≡ with_recording d date.now agent.now }
{
    d.recording(*date, agent)
}

// Writing date and agent.
#[unsafe(no_mangle)]
pub extern "C" fn ads_writing(d: Description, date: &[u8; 8], agent: &[u8]) -> Description
    ensures { result ≡ with_writing d date.now agent.now }
{
    d.writing(*date, agent)
}
