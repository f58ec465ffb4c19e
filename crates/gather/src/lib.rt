// The call gather: "joins, in order, one short ID's mini-chunk data into a lent buffer and answers the length; bytes past
// it keep their old state". The row is that of a reading with rows enough, which the crate walk goes through without a
// table; its contents are gone through by the crate multi; no chunk's sum is taken. On a refusal nothing is written. The contract
// cites gather and count_answer of the crate metafile (specs/Calls, Answers); it rests on the laws of the row of a number
// in walk (proofs/Named).
#![tactic(auto)]

ghost use Rattle.std.specs.Prelude.{◌≡◌, ◌≤◌, length};
ghost use Rattle.metafile.specs.Fields.{padded};
ghost use Rattle.metafile.specs.Multi.{multi_fault};
ghost use Rattle.metafile.specs.Answers.{outcome, count_answer};
ghost use Rattle.metafile.specs.Calls.{gather};
ghost use Rattle.gather.specs.Outcome.{gather_from};

use metafile::{Refusal, over_limit};
use table::places::ID;

// A short ID as a given text, with spaces behind it.
fn short_id(id: &[u8]) -> [u8; 10]
    requires { length id.now ≤ 10 }
    ensures { result ≡ padded 10 id.now }
{
    let mut short = [b' '; ID];
    short[..id.len()].copy_from_slice(id);
    short
}

// The data under a short ID, from the contents r of a MultiChunk. Tests 14, then 18.
fn gather_from(r: &[u8], id: &[u8], buffer: &mut [u8]) -> Result<usize, Refusal>
    requires r_value { multi_fault r.now ≡ 0 }
    requires id_len { length id.now ≡ 10 }
    ensures { outcome (count_answer result) buffer.new ≡ gather_from r.now id.now buffer.old }
{
    if !multi::is_declared(r, id) {
        return Err(Refusal::NoDependency);
    }
    let n = multi::joined_length(r, id);
    if buffer.len() < n {
        return Err(Refusal::NoRoom);
    }
    multi::put_joined(r, id, buffer);
    Ok(n)
}

// Tests 11, 13, 14, 18. A longer ID than 10 bytes is undeclared.
pub fn gather(file: &[u8], row: usize, id: &[u8], buffer: &mut [u8]) -> Result<usize, Refusal>
    ensures { outcome (count_answer result) buffer.new ≡ gather file.now row id.now buffer.old }
{
    if over_limit(&[file.len(), id.len(), buffer.len()]) {
        return Err(Refusal::OverLimit);
    }
    let mut index = [0u32; walk::INDEX];
    let own = walk::row_of(file, row, row, &mut index)?;
    if !own.layout.multichunk {
        return Err(Refusal::NoDependency);
    }
    if ID < id.len() {
        return Err(Refusal::NoDependency);
    }
    let at = own.at + own.layout.contents;
    gather_from(&file[at..], &short_id(id), buffer)
}
