// The calls for programs in C and Rust: what include/ads.h declares, `tools/staticlib ads` builds. Each function is thin over
// a call or a method of the crates below, and its contract has the same defined value as that one's own; ads_is_clean, which
// is over none, has the definition of clean. Nothing is required of a caller but what a pointer and its length mean. An answer that is an enum there is a struct here: its number is 0, or the
// number of the refusal, and then its other values are 0 (specs/Answers).
//     answers      the structs that are answered
//     calls        begin, read and whether it is clean, parent, append, contents, gather, ancestors, relations, the listing, the price,
//                  pack and unpack
//     description  the description of a chunk to append
#![tactic(auto)]

mod answers;
mod calls;
mod description;

pub use answers::{Ancestry, Counted, CountedRow, Ends, Parent, Priced, Written};
pub use contents::Part;
