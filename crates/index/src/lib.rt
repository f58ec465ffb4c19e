// Serial numbers that a reading has met, by a tag of each: "9 whole chunk, serial already in a row". The tags stand in an
// index that the caller lends: its first entry is for the caller's count, the slots follow, and a tag stands from the slot
// of its serial number on. Where an empty slot comes before the tag, no serial number met has this slot and tag, so the
// serial number is new; where the tag stands, nothing is said of it, as two serial numbers may share both. Slot and tag are
// made of one hash. The contracts cite specs/Index; the laws of the index are in proofs/Laws. None of it is a public call.
#![tactic(auto)]

ghost use Rattle.std.specs.Prelude.{◌≡◌, ◌+◌, ◌≤◌, ◌<◌, length, MatchOption};
ghost use Rattle.index.specs.Index.{word_at, hash_of, tag_of, slot_of, first_of, size, near_for};

// Four bytes as a number, the first lowest.
fn word(s: &[u8], at: usize) -> u64
    requires { at + 4 ≤ length s.now }
    ensures { (result ≡ word_at at s.now) × (result < 4294967296) }
{
    sums::half_word(&s[at..at + 4])
}

// The hash of a serial number: its first 35 bytes, four at a time, each four with its weight; the last four begin in those
// before. There is no loop: so the products don't wait for each other.
pub fn hash(s: &[u8]) -> u64
    requires { 38 ≤ length s.now }
    ensures { result ≡ hash_of s.now }
{
    let first = word(s, 0) * 48271 + word(s, 4) * 69621 + word(s, 8) * 16807;
    let second = word(s, 12) * 39373 + word(s, 16) * 62089 + word(s, 20) * 95353;
    let third = word(s, 24) * 111913 + word(s, 28) * 30323 + word(s, 31) * 84589;
    first + second + third
}

// What stands in the index for a hash: a number below 2^32 that is never 0.
#[tactic(auto, unfolding(crate::specs::Index::tag_of))]
pub fn tag(hash: u64) -> u32
    ensures { result ≡ tag_of hash }
{
    (1 + hash % 4294967291) as u32
}

// The slot at which the search for a hash begins.
pub fn slot(hash: u64) -> usize
    ensures { (result ≡ slot_of hash) × (result < 196613) }
{
    let m = hash % 2147483647;
    (m * m % 2147483647 % 196613) as usize
}

// The first entry that is empty or this tag.
pub fn first(entries: &[u32], tag: u32) -> Option<usize>
    ensures { MatchOption result (first_of tag entries.now ≡ length entries.now) (λ i. (i ≡ first_of tag entries.now) × (i < length entries.now)) }
{
    entries.iter().position(|x| *x == 0 || *x == tag)
}

// The place of a hash in the index: the first of 512 slots, from its own on, that is empty or has its tag; the end where none
// of them is.
#[tactic(auto, unfolding(crate::specs::Index::size))]
pub fn place(index: &[u32], hash: u64) -> usize
    requires { length index.now ≡ size }
    ensures { result ≡ near_for hash index.now }
{
    let from = 1 + slot(hash);
    match first(&index[from..from + 512], tag(hash)) {
        Some(steps) => from + steps,
        None => index.len(),
    }
}
