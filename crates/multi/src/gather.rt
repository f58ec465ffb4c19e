// The data under one short ID, in contents that have no fault: "Gather joins, in order, one short ID's mini-chunk data".
ghost use Rattle.std.specs.Prelude.{◌≡◌, ◌+◌, ◌<◌, ◌≤◌, length, drop};
ghost use Rattle.metafile.specs.Bytes.{member};
ghost use Rattle.metafile.specs.Answers.{placed};
ghost use Rattle.metafile.specs.Multi.{mini_data, minis_place, declared_ids, multi_fault, multi_joined};
ghost use Rattle.std.specs.List.{concat};
ghost use Rattle.std.specs.Iterator.{YieldsFirstRef, item_count};
ghost use Rattle.multi.specs.Part.{Whole, each_under};

use crate::{minis, runs, types};
use table::places;

// Whether a type declares a short ID.
pub fn is_declared(r: &[u8], id: &[u8]) -> bool
    requires r_value { multi_fault r.now ≡ 0 }
    requires id_len { length id.now ≡ 10 }
    ensures { result ≡ member id.now (declared_ids r.now) }
{
    let mut at: usize = places::TYPES;
    for _ in 0..types::type_count(r) {
        if search::same_bytes(id, &r[at + places::SHORT_ID..at + places::SHORT_ID_END]) {
            return true;
        }
        at += types::type_bytes(r, at);
    }
    false
}

// The place of the first mini-chunk: the header's length, which is that of the types too, "counts from just after its last
// digit".
fn minis_place(r: &[u8]) -> usize
    requires { multi_fault r.now ≡ 0 }
    ensures { result ≡ minis_place r.now }
{
    places::MULTI_HEADER_LENGTH_END + runs::length_at(r, places::MULTI_HEADER_LENGTH)
}

// What each mini-chunk adds to the data under a short ID, from a place of contents that have no fault on.
#[derive(Drop)]
struct Under<'a> {
    r: &'a [u8],
    id: &'a [u8],
    at: usize,
    ghost whole: { Whole r.now at },
}

impl<'a> Under<'a> {
    fn new(r: &'a [u8], id: &'a [u8]) -> Under<'a>
        requires { multi_fault r.now ≡ 0 }
        ensures { concat (each_under result.id.now 0 (drop result.at result.r.now)) ≡ multi_joined id.now r.now }
    {
        Under {
            r,
            id,
            at: minis_place(r),
        }
    }
}

impl<'a> Iterator for Under<'a> {
    type Item = &'a [u8];

    ghost next_gives = { YieldsFirstRef (λ s. each_under s.id.now 0 (drop s.at s.r.now)) };

    ghost remaining = { item_count (λ s. each_under s.id.now 0 (drop s.at s.r.now)) };

    fn next(&mut self) -> Option<&'a [u8]> {
        let at = self.at;
        if !minis::is_mini(self.r, at) {
            return None;
        }
        self.at = at + minis::mini_bytes(self.r, at);
        if search::same_bytes(
            &self.r[at + places::MINI_ID..at + places::MINI_LENGTH],
            self.id,
        ) {
            return Some(&self.r[at + places::MINI_DATA..self.at]);
        }
        Some(&self.r[..0])
    }
}

// The length of the data under a short ID.
pub fn joined_length(r: &[u8], id: &[u8]) -> usize
    requires { multi_fault r.now ≡ 0 }
    ensures { result ≡ length (multi_joined id.now r.now) }
{
    let mut done: usize = 0;
    for data in Under::new(r, id) {
        done += data.len();
    }
    done
}

// The data under a short ID, put at the start of a buffer; the answer is their length.
pub fn put_joined(r: &[u8], id: &[u8], buffer: &mut [u8]) -> usize
    requires r_value { multi_fault r.now ≡ 0 }
    requires r_in_bounds { length (multi_joined id.now r.now) ≤ length buffer.old }
    ensures value { result ≡ length (multi_joined id.now r.now) }
    ensures buffer_after { buffer.new ≡ placed 0 (multi_joined id.now r.now) buffer.old }
{
    let mut done: usize = 0;
    for data in Under::new(r, id) {
        done = lines::put_bytes(buffer, done, data);
    }
    done
}
