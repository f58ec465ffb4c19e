// A filter of the hashes of serial numbers, for rows that an index has no room for: where a bit of a hash isn't set, the hash
// was never set; where all are, nothing is said, as others may have set them. The filter is the entries 1 to 196613 of an
// array that the caller lends. The contracts cite specs/Filter; the laws are in proofs/Laws. None of it is a public call.
#![tactic(auto)]

ghost use Rattle.std.specs.Prelude.{◌≡◌, ◌*◌, ◌%◌, ◌<◌, ◌≤◌, length};
ghost use Rattle.filter.specs.Filter.{entry_of, bits_of, set_at, with_bits, covered_by, covering};

// The primes of the two numbers of a hash.
const FIRST: u64 = 2147483647;

const SECOND: u64 = 4294967291;

// A number of a hash: its square modulo a prime.
fn number<const P: u64>(hash: u64) -> u64
    requires { (0 < P) × (P ≤ 4294967296) }
    ensures { result ≡ (hash % P) * (hash % P) % P }
{
    let m = hash % P;
    m * m % P
}

// The entry of a number.
#[tactic(auto, unfolding(crate::specs::Filter::entry_of))]
fn entry(n: u64) -> usize
    ensures { (result ≡ entry_of n) × (result ≤ 196613) }
{
    (1 + n % 196613) as usize
}

// The bits of a number in its entry.
fn bits(n: u64) -> u32
    ensures { result ≡ bits_of n }
{
    let a = (n / 196613 % 32) as u32;
    let b = (n / 6291616 % 32) as u32;
    (1u32 << a) | (1u32 << b)
}

// Whether the bits of a number are set.
#[tactic(auto, unfolding(crate::specs::Filter::set_at))]
fn is_set(words: &[u32], n: u64) -> bool
    requires { 196613 < length words.now }
    ensures { result ≡ set_at n words.now }
{
    let i = entry(n);
    let b = bits(n);
    (words[i] & b) == b
}

// Sets the bits of a number.
#[tactic(auto, unfolding(crate::specs::Filter::with_bits))]
fn set_bits(words: &mut [u32], n: u64)
    requires { 196613 < length words.old }
    ensures { words.new ≡ with_bits n words.old }
{
    let i = entry(n);
    words[i] |= bits(n);
}

// Whether all bits of a hash are set.
#[tactic(auto, unfolding(crate::specs::Filter::covered_by, crate::specs::Filter::first_of, crate::specs::Filter::second_of))]
pub fn covered(words: &[u32], hash: u64) -> bool
    requires { 196613 < length words.now }
    ensures { result ≡ covered_by words.now hash }
{
    is_set(words, number::<FIRST>(hash)) && is_set(words, number::<SECOND>(hash))
}

// Sets the bits of a hash.
#[tactic(auto, unfolding(crate::specs::Filter::covering, crate::specs::Filter::first_of, crate::specs::Filter::second_of))]
pub fn cover(words: &mut [u32], hash: u64)
    requires { 196613 < length words.old }
    ensures { words.new ≡ covering hash words.old }
{
    set_bits(words, number::<FIRST>(hash));
    set_bits(words, number::<SECOND>(hash));
}
