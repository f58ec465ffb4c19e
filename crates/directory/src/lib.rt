// A directory of serial numbers that stand at places of a file, in one array of 197126 entries that the caller lends.
// Entries 0 to 51999 are keys: the place of the serial number of entry j. Entries 52000 to 103999 are starts: a second
// number that the caller gives for entry j. The others are slots: 0, or the number of an entry and 1. An entry's slot
// stands from the slot of its serial number's hash on, with no empty slot before it. An entry that finds no slot is not
// added. The contracts cite specs/Directory and specs/Inner; the laws are in proofs/Laws. Rests on index for the hash and
// the search among slots, on search for the comparison. None of it is a public call.
#![tactic(auto)]

ghost use Rattle.std.specs.Prelude.{◌≡◌, ◌+◌, ◌≤◌, ◌<◌, length, MatchOption};
ghost use Rattle.metafile.specs.Bytes.{part};
ghost use Rattle.metafile.specs.Fields.{same_serial};
ghost use Rattle.index.specs.Index.{size};
ghost use Rattle.directory.specs.Directory.{Directory, Empty, Added, Sought, slot_for, start_no};
ghost use Rattle.directory.specs.Inner.{free_for, is_entry};

// arrays: keys, starts and slots share the one array that a caller has for walk's index: fixed memory.
const ROOM: usize = 52000;

const SLOTS: usize = 104000;

const SERIAL: usize = 38;

// Empties the slots.
#[tactic(auto, unfolding(index::specs::Index::size))]
pub fn clear(d: &mut [u32])
    requires { length d.old ≡ size }
    ensures { Empty d.new }
{
    d[SLOTS..].fill(0);
}

// The slot at which the search for a hash begins.
#[tactic(auto, unfolding(crate::specs::Directory::slot_for))]
fn slot_for(hash: u64) -> usize
    ensures { (result ≡ slot_for hash) × (result < 196003) }
{
    SLOTS + index::slot(hash) % 92003
}

// The first slot, from that of a hash on, that is empty or has e.
#[tactic(auto, unfolding(index::specs::Index::size))]
fn free(d: &[u32], hash: u64, e: u32) -> Option<usize>
    requires { length d.now ≡ size }
    ensures { MatchOption result (free_for e hash d.now ≡ length d.now) (λ i. (i ≡ free_for e hash d.now) × (i < length d.now)) }
{
    let from = slot_for(hash);
    let steps = index::first(&d[from..], e)?;
    Some(from + steps)
}

// One entry more, as number n: the place of its serial number, and its start. Answers how many there are then.
pub fn add(file: &[u8], d: &mut [u32], n: usize, key: usize, start: usize) -> usize
    requires directory { Directory file.now n d.old }
    requires key_in_bounds { key + 38 ≤ length file.now }
    requires start_in_bounds { start ≤ length file.now }
    requires file_len_bound { length file.now ≤ 1073741824 }
    ensures { Added file.now key start n d.old result d.new }
{
    if n == ROOM {
        return n;
    }
    let Some(slot) = free(d, index::hash(&file[key..key + SERIAL]), (n + 1) as u32) else {
        return n;
    };
    d[n] = key as u32;
    d[ROOM + n] = start as u32;
    d[slot] = (n + 1) as u32;
    n + 1
}

// The start of entry j.
#[tactic(auto, unfolding(index::specs::Index::size))]
pub fn start(d: &[u32], j: usize) -> usize
    requires d_len { length d.now ≡ size }
    requires j_bound { j < 52000 }
    ensures { result ≡ start_no d.now j }
{
    d[ROOM + j] as usize
}

// "Serials are compared by their first 35 bytes": that at a place of the file, and another.
fn same_at(file: &[u8], key: usize, serial: &[u8]) -> bool
    requires key_in_bounds { key + 38 ≤ length file.now }
    requires in_bounds { 38 ≤ length serial.now }
    ensures { result ≡ same_serial (part key 38 file.now) serial.now }
{
    search::same_bytes(&file[key..key + 35], &serial[0..35])
}

// Whether e, what stands in a slot, is one of n entries and has this serial number.
#[tactic(auto, unfolding(crate::specs::Inner::is_entry, index::specs::Index::size))]
fn is_entry(file: &[u8], d: &[u32], n: usize, serial: &[u8], e: usize) -> bool
    requires directory { Directory file.now n d.now }
    requires in_bounds { 38 ≤ length serial.now }
    requires e_nonzero { 0 < e }
    ensures { result ≡ is_entry file.now d.now n serial.now e }
{
    e <= n && same_at(file, d[e - 1] as usize, serial)
}

// The entry with a serial number.
#[tactic(auto, unfolding(index::specs::Index::size))]
pub fn look_up(file: &[u8], d: &[u32], n: usize, serial: &[u8]) -> Option<usize>
    requires directory { Directory file.now n d.now }
    requires in_bounds { 38 ≤ length serial.now }
    ensures { MatchOption result (Sought file.now d.now n serial.now 0) (λ j. Sought file.now d.now n serial.now (j + 1)) }
{
    let from = slot_for(index::hash(serial));
    for slot in &d[from..] {
        let e = *slot as usize;
        if e == 0 {
            return None;
        }
        if is_entry(file, d, n, serial, e) {
            return Some(e - 1);
        }
    }
    None
}
